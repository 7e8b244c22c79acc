//! Ties: the order of messages that come at one moment, drawn from the seed.

ghost use Rattle.std.specs.Prelude.{◌≡◌, [], ◌∷◌};
ghost use Rattle.dn_model.specs.Keys.{fin, rounds, tie};

/// The finish of SplitMix64: it mixes the bits of a number.
#[tactic(auto, unfolding(crate::specs::Keys::fin, crate::specs::Keys::fin_step))]
pub fn fin(z: u64) -> u64
    ensures { result ≡ fin z }
{
    let y = (z ^ (z >> 30)).wrapping_mul(0xBF58_476D_1CE4_E5B9);
    let x = (y ^ (y >> 27)).wrapping_mul(0x94D0_49BB_1331_11EB);
    x ^ (x >> 31)
}

/// The tie of a message: 0 where the seed is 0, otherwise four rounds over its group, sum, origin and
/// number.
#[tactic(auto, unfolding(crate::specs::Keys::tie, crate::specs::Keys::rounds))]
pub fn tie(seed: u64, group: u32, sum: u32, origin: u16, seq: u64) -> u64
    ensures { result ≡ tie seed group sum origin seq }
{
    if seed == 0 {
        return 0;
    }
    let of_group = round(seed, u64::from(group));
    let of_sum = round(of_group, u64::from(sum));
    let of_origin = round(of_sum, u64::from(origin));
    round(of_origin, seq)
}

/// One round of SplitMix64 over a number.
#[tactic(auto, unfolding(crate::specs::Keys::rounds))]
fn round(before: u64, number: u64) -> u64
    ensures { result ≡ rounds before (number ∷ []) }
{
    fin(
        before
            .wrapping_add(0x9E37_79B9_7F4A_7C15)
            .wrapping_add(number),
    )
}
