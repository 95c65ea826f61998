//! The bytewise XOR of sectors, by which a row of a striped set with parity survives the loss of one sector.
#![tactic(auto)]

ghost use Rattle.std.specs.Prelude.{◌≡◌, ◌↔◌, ◌*◌, ◌<◌, IsTrue, bit_xor, length};
ghost use Rattle.std.specs.Simd.Lanes.{chunk, put_chunk, zip2};
ghost use Rattle.parity.specs.Xor.{xor_of, xor_of_all, zero_sector};
ghost use Rattle.parity.specs.Lanes.{sector_in};
ghost use Rattle.parity.specs.Laws.{ByteByByte, AnyOneFromTheOthers, OthersGiveTheMissingOne, DeltaKeepsRowsSound};

use sector_model::Sector;
use std::simd::prelude::*;

/// Each of the 512 bytes of `to` becomes its XOR with the byte of `from` at the same place.
pub fn xor_into(to: &mut Sector, from: &Sector)
    ensures { to.new ≡ xor_of to.old from.now }
{
    let mut lanes = load(to);
    xor_lanes(&mut lanes, from);
    store(&lanes, to);
}

/// Each byte of the sector in these vectors becomes its XOR with the byte of `from` at the same place. Vector i holds
/// the bytes 64 i to 64 i + 63.
#[inline(always)]
pub fn xor_lanes(to: &mut [Simd<u8, 64>; 8], from: &Sector)
    ensures { sector_in to.new ≡ xor_of (sector_in to.old) from.now }
{
    for i in 0..8 {
        to[i] = xor(to[i], part(from, i));
    }
}

/// `to` becomes the XOR of all these sectors, whatever it held before. The XOR of none is zero.
pub fn xor_all(sectors: &[Sector], to: &mut Sector)
    ensures { to.new ≡ xor_of_all sectors.now }
{
    let mut sum = [Simd::splat(0); 8];
    for sector in sectors {
        xor_lanes(&mut sum, sector);
    }
    store(&sum, to);
}

/// Whether all 512 bytes of the sector are 0.
pub fn is_zero(sector: &Sector) -> bool
    ensures { IsTrue result ↔ (sector.now ≡ zero_sector) }
{
    let mut union: Simd<u8, 64> = Simd::splat(0);
    for k in 0..8 {
        union |= part(sector, k);
    }
    union.reduce_or() == 0
}

/// The parity of a row after one data sector of the row changed from `old` to `new`.
pub fn delta(parity: &mut Sector, old: &Sector, new: &Sector)
    ensures { parity.new ≡ xor_of (xor_of parity.old old.now) new.now }
{
    let mut lanes = load(parity);
    xor_lanes(&mut lanes, old);
    xor_lanes(&mut lanes, new);
    store(&lanes, parity);
}

// The sector in vectors.
#[inline(always)]
fn load(sector: &Sector) -> [Simd<u8, 64>; 8]
    ensures { sector_in result ≡ sector.now }
{
    let mut lanes = [Simd::splat(0); 8];
    for k in 0..8 {
        lanes[k] = part(sector, k);
    }
    lanes
}

// `to` becomes the sector in these vectors.
#[inline(always)]
fn store(lanes: &[Simd<u8, 64>; 8], to: &mut Sector)
    ensures { to.new ≡ sector_in lanes.now }
{
    for k in 0..8 {
        put_part(to, k, lanes[k]);
    }
}

// The bytes 64 k to 64 k + 63.
#[inline(always)]
fn part(sector: &Sector, k: usize) -> Simd<u8, 64>
    requires { k < 8 }
    ensures { result ≡ chunk (64 * k) 64 sector.now }
{
    Simd::from_slice(&sector[64 * k..])
}

// The bytes 64 k to 64 k + 63 become those of the vector.
#[inline(always)]
fn put_part(sector: &mut Sector, k: usize, vector: Simd<u8, 64>)
    requires { k < 8 }
    ensures long { length vector ≡ 64 }
    ensures value { sector.new ≡ put_chunk (64 * k) sector.old vector }
{
    vector.copy_to_slice(&mut sector[64 * k..]);
}

#[inline(always)]
fn xor(a: Simd<u8, 64>, b: Simd<u8, 64>) -> Simd<u8, 64>
    ensures long { length a ≡ 64 }
    ensures value { result ≡ zip2 bit_xor a b }
{
    a ^ b
}

/// Does nothing: its clauses are the laws of parity, for sectors and rows of any content.
pub fn laws_of_parity()
    ensures byte_by_byte { ByteByByte }
    ensures any_one_from_the_others { AnyOneFromTheOthers }
    ensures others_give_the_missing_one { OthersGiveTheMissingOne }
    ensures delta_keeps_rows_sound { DeltaKeepsRowsSound }
{}

#[cfg(test)]
mod tests {
    use super::*;

    // Byte i of the sector of this number is (37 i + number) mod 256.
    fn numbered(number: usize) -> Sector {
        let mut sector = [0; 512];
        for i in 0..512 {
            sector[i] = ((i * 37 + number % 256) % 256) as u8;
        }
        sector
    }

    // A sector of one value.
    fn all_of(value: u8) -> Sector {
        [value; 512]
    }

    #[test]
    fn xor_lengths(rt: HostRuntime) {
        for count in [0usize, 1, 2, 7, 8] {
            let mut sectors = Vec::new(rt.alloc());
            for number in 0..count {
                sectors.push(numbered(number)).expect(&rt, "memory");
            }
            let mut got = all_of(0xa5);
            xor_all(&sectors, &mut got);
            for i in 0..512 {
                let mut want = 0;
                for number in 0..count {
                    want ^= (i * 37 + number) % 256;
                }
                assert_eq!(rt; got[i] as usize, want, "byte {i} of {count} sectors");
            }
        }
    }

    #[test]
    fn vector_i_has_the_bytes_from_64_i_on(rt: HostRuntime) {
        let mut lanes = [Simd::splat(0); 8];
        for place in 0..8 {
            lanes[place] = Simd::splat(place as u8);
        }
        xor_lanes(&mut lanes, &numbered(3));
        for place in 0..8 {
            let bytes = lanes[place].to_array();
            for k in 0..64 {
                let want = ((64 * place + k) * 37 + 3) % 256 ^ place;
                assert_eq!(rt; bytes[k] as usize, want, "byte {k} of vector {place}");
            }
        }
    }

    #[test]
    fn zero_has_no_byte_set(rt: HostRuntime) {
        assert!(rt; is_zero(&[0; 512]));
        for place in [0usize, 1, 255, 256, 510, 511] {
            let mut sector = [0; 512];
            sector[place] = 1;
            assert!(rt; !is_zero(&sector), "a one at {place}");
        }
    }

    #[test]
    fn parity_follows_a_changed_sector(rt: HostRuntime) {
        // 0f xor 33 is 3c. With 55 for the 0f it is 66.
        let mut parity = all_of(0x0f);
        xor_into(&mut parity, &all_of(0x33));
        assert!(rt; parity == all_of(0x3c));
        delta(&mut parity, &all_of(0x0f), &all_of(0x55));
        assert!(rt; parity == all_of(0x66));
        laws_of_parity();
    }
}
