// The bits of a byte, and the 16-bit count that falls.
#![tactic(auto)]

ghost use Rattle.std.specs.Prelude.{◌≡◌, ◌≤◌};
ghost use Rattle.bits.specs.Bits.{bit_of, with_of, without_of, masked_of, weighed, less};

// Whether bit n of x is set; no bit past 7 is.
#[tactic(auto, using(crate::proofs::Bytes::no_bit), unfolding(crate::specs::Bits::bit_of))]
pub fn bit(x: u8, n: u8) -> bool
    ensures { result ≡ bit_of x n }
{
    n < 8 && (x >> n) % 2 == 1
}

// x with bit n set.
#[tactic(auto, using(crate::proofs::Bytes::set_is, crate::proofs::Bytes::set_past))]
pub fn with(x: u8, n: u8) -> u8
    ensures { result ≡ with_of x n }
{
    if n < 8 { x | (1 << n) } else { x }
}

// x with bit n clear.
#[tactic(auto, using(crate::proofs::Bytes::clear_is, crate::proofs::Bytes::clear_past))]
pub fn without(x: u8, n: u8) -> u8
    ensures { result ≡ without_of x n }
{
    if n < 8 { x & !(1 << n) } else { x }
}

// The bits of x that the mask leaves.
#[tactic(auto, unfolding(crate::specs::Bits::masked_of))]
pub fn masked(x: u8, mask: u8) -> u8
    ensures { result ≡ masked_of x mask }
{
    x & !mask
}

// A level as a bit of the given weight.
pub fn weigh(level: bool, weight: u8) -> u8
    ensures value { result ≡ weighed level weight }
    ensures upper_bound { result ≤ weight }
{
    if level { weight } else { 0 }
}

// One less, and FFFFH below 0.
pub fn one_less(n: u16) -> u16
    ensures { result ≡ less n }
{
    n.wrapping_sub(1)
}
