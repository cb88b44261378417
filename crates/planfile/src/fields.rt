// The fields of one record that are longer than a byte, and the bytes that must be zero.
ghost use Rattle.std.specs.Prelude.{◌≡◌, ◌+◌, length, ◌≤◌, ◌==◌, not, position, Ok};
ghost use Rattle.planfile.specs.Fields.{price_of, spare_bytes as the_spare_bytes};
ghost use Rattle.planfile.specs.Records.{zeros as the_zeros};

use crate::progress::FileKind;
use crate::refusal::{Refusal, Spot};

// An amount as a record holds it. Strain is zero in a money file.
#[derive(Clone, Copy, PartialEq, Eq, Debug)]
pub struct Price {
    pub strain: i32,
    pub money: i64,
}

// Refuses the first byte that is not zero, where `bytes` begins at place `from` of a record.
#[tactic(auto, using(crate::proofs::Bytes::nonzero_position))]
pub(crate) fn zeros(from: usize, bytes: &[u8]) -> Result<(), Spot>
    requires { from + length bytes.now ≤ 16 }
    ensures { result ≡ the_zeros from bytes.now (Ok tt) }
{
    match first_nonzero(bytes) {
        Some(i) => Err(Refusal::Padding.at((from + i) as u8)),
        None => Ok(()),
    }
}

fn first_nonzero(bytes: &[u8]) -> Option<usize>
    ensures { result ≡ position (λ b. not (b == 0)) bytes.now }
{
    bytes.iter().position(|b| *b != 0)
}

// How many bytes from the third on must be zero in a quote.
pub(crate) fn spare_bytes(kind: FileKind) -> usize
    ensures value { result ≡ the_spare_bytes kind }
    ensures few { result ≤ 5 }
{
    match kind {
        FileKind::Money => 5,
        FileKind::Ranked => 1,
    }
}

// Bytes 4 to 15 of a record: the strain in four of them, and the money in eight.
#[tactic(auto, unfolding(crate::specs::Fields::strain, crate::specs::Fields::money))]
pub(crate) fn read_price(raw: &[u8; 16]) -> Price
    ensures { result ≡ price_of raw.now }
{
    let [_, _, _, _, a, b, c, d, e, f, g, h, i, j, k, l] = *raw;
    Price {
        strain: i32::from_le_bytes([a, b, c, d]),
        money: i64::from_le_bytes([e, f, g, h, i, j, k, l]),
    }
}
