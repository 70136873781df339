ghost use Rattle.std.specs.Prelude.{◌≡◌, ◌+◌, ◌/◌};

/// How many of `n` members are a majority.
pub fn majority(n: u8) -> u8
    ensures { result ≡ n / 2 + 1 }
{
    let half = n / 2;
    half + 1
}

#[cfg(test)]
mod tests {
    use super::*;

    #[test]
    fn more_than_half(rt: HostRuntime) {
        for (members, want) in [
            (1, 1),
            (2, 2),
            (3, 2),
            (4, 3),
            (5, 3),
            (6, 4),
            (7, 4),
            (255, 128),
        ] {
            assert_eq!(rt; majority(members), want);
        }
    }
}
