// Numbers that are drawn from a seed.
ghost use Rattle.std.specs.Prelude.{◌≡◌};
ghost use Rattle.tv_base.specs.Draws.{next_draw, upper_bits};

/// The number that is drawn after this one (docs/ALGORITHM.md, "Schedules").
pub fn next_draw(number: u64) -> u64
    ensures { result ≡ next_draw number }
{
    number
        .wrapping_mul(6_364_136_223_846_793_005)
        .wrapping_add(1_442_695_040_888_963_407)
}

/// What a draw of this number gives: the upper 31 bits.
pub fn upper_bits(number: u64) -> u32
    ensures { result ≡ upper_bits number }
{
    (number / (1 << 33)) as u32
}
