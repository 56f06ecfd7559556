// A slot's header: one 64-bit word that holds the era and the client of the last swap, and the count. Only this
// crate knows which bits are whose; the others go by the laws in proofs/Laws.antt.
#![tactic(auto, unfolding(crate::specs::Header::packed, crate::specs::Header::unpacked, crate::specs::Header::spare_in))]

ghost use Rattle.std.specs.Prelude.{◌≡◌};
ghost use Rattle.header.specs.Header.{packed, unpacked, is_free, spare_in};

use numbers::{Client, Era};

// What a header holds.
#[derive(Clone, Copy, PartialEq, Eq)]
pub struct Fields {
    pub era: Era,
    pub count: u32,
    pub client: Client,
}

// The word that holds `fields`, each in its own bits. Named, and no `From`: `u64::from(fields)` would not say which word.
pub fn pack(fields: Fields) -> u64
    ensures { result ≡ packed fields }
{
    u64::from(fields.era.0)
        | u64::from(fields.count & 0xffff) << 32
        | u64::from(fields.client.0) << 48
}

// The fields that `word` holds. Its bits 56 to 63 are not among them. Named, as the other way round.
pub fn unpack(word: u64) -> Fields
    ensures { result ≡ unpacked word }
{
    Fields {
        era: Era((word & 0xffff_ffff) as u32),
        count: (word >> 32 & 0xffff) as u32,
        client: Client((word >> 48 & 0xff) as u8),
    }
}

// Whether the slot of this header is free.
pub fn is_free(word: u64) -> bool
    ensures { result ≡ is_free word }
{
    unpack(word).count == 0
}

// The bits of `word` that no field has.
pub fn spare(word: u64) -> u64
    ensures { result ≡ spare_in word }
{
    word >> 56
}
