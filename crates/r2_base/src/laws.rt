//! What holds of any two addresses and request ids.

ghost use Rattle.r2_base.specs.Names.{SameAddressesAreEqual, SameRequestIdsAreEqual};

/// The test of addresses passes exactly at equal ones.
pub fn same_addresses_are_equal()
    ensures { SameAddressesAreEqual }
{}

/// The test of request ids passes exactly at equal ones.
pub fn same_request_ids_are_equal()
    ensures { SameRequestIdsAreEqual }
{}
