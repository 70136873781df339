//! Who is where.

ghost use Rattle.std.specs.Prelude.{◌≡◌, ◌≤◌};
ghost use Rattle.hc_replier.specs.Bounds.{most_members};
ghost use Rattle.hc_world.specs.Addresses.{member_address};

use r2_base::Addr;

/// The address of the client.
pub const CLIENT: Addr = Addr {
    ip: 0x0A00_00C8,
    port: 7000,
};

/// The address of the aggregator.
pub const AGGREGATOR: Addr = Addr {
    ip: 0x0A00_0064,
    port: 9100,
};

/// After how many ticks without word from a leader the first member stands for election.
pub(crate) const ELECTION: u32 = 10;

/// The address of the member with a number.
pub(crate) fn member_address(member: u8) -> Addr
    requires { member ≤ most_members }
    ensures { result ≡ member_address member }
{
    Addr {
        ip: 0x0A00_0001 + u32::from(member),
        port: 9000,
    }
}
