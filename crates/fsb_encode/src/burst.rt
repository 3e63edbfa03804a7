//! The order in which the chunks of a line come.

ghost use Rattle.std.specs.Prelude.{◌≡◌, ◌<◌, All};
ghost use Rattle.fsb_encode.specs.Burst.{burst_order};

/// The chunks of a line in the order in which they come, where this one comes first.
#[tactic(auto, unfolding(crate::specs::Burst::burst_order))]
pub fn chunk_order(first: u8) -> [u8; 4]
    requires { first < 4 }
    ensures order { result ≡ burst_order first }
    ensures chunks { All (λ chunk. chunk < 4) result }
{
    match first {
        0 => [0, 1, 2, 3],
        1 => [1, 0, 3, 2],
        2 => [2, 3, 0, 1],
        _ => [3, 2, 1, 0],
    }
}
