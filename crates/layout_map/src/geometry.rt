//! The geometry of a set, and the maps between its data sectors and its members' sectors.
ghost use Rattle.std.specs.Prelude.{◌≡◌, ◌+◌, ◌^◌, ◌<◌, ◌≤◌, ◌↔◌, ℕ, IsOk, IsTrue, IfOk, IfErr, IsNone, IfSome};
ghost use Rattle.layout_map.specs.declared.format.Format.TheVariants.{One, Two};
ghost use Rattle.layout_map.specs.Formats.{is_chunk_size, stripes_limit};
ghost use Rattle.layout_map.specs.Placement.{rows_of, data_sectors_of, doubled, extent_blocks, extents_of};
ghost use Rattle.layout_map.specs.Placement.{first_extent, stripe_blocks, IsGeometry, IsPlace, IsParityOf};

use crate::Format;
use crate::sizes::{EXTENT_SECTORS, FIRST_ROW, MOST_EXTENTS, MOST_MEMBERS, RESERVED_SECTORS};
use sector_model::Refusal;

/// The shape of a set: what decides where each of its data sectors lies.
///
/// Every value is within the limits of the set's format, and there is room for one extent at least.
#[derive(Clone, Copy, Debug, PartialEq, Eq)]
pub struct Geometry {
    /// The format, which decides the limits of the others.
    pub format: Format,
    /// The members, 3 to 8.
    pub members: u8,
    /// The sectors of a chunk: 8, 16, 32, 64 or 128, in format 2 also 256, 512 or 1,024.
    pub chunk: u16,
    /// The stripes: 2 to 65,536, in format 2 as many as have places on a device.
    pub stripes: u32,
    pub ghost limits: { IsGeometry format members chunk stripes },
}

/// Where a sector lies.
#[derive(Clone, Copy, Debug, PartialEq, Eq)]
pub struct Place {
    /// The member, from 0.
    pub member: u8,
    /// The row, from 0. A row is one sector of every member.
    pub row: u64,
}

impl Geometry {
    /// The geometry of a set of format 1 with these members, sectors of a chunk and stripes.
    ///
    /// Refused with `BadGeometry` where a number is outside its limits (3 to 8 members, a chunk of 8, 16, 32, 64 or 128
    /// sectors, 2 to 65,536 stripes), or where the data sectors, less the 64 reserved ones, hold no extent of 64
    /// sectors.
    pub fn new(members: u8, chunk: u16, stripes: u32) -> Result<Geometry, Refusal>
        ensures within { IsOk result ↔ IsGeometry One members chunk stripes }
        ensures format { IfOk result (λ geometry. geometry.format ≡ One) }
        ensures members { IfOk result (λ geometry. geometry.members ≡ members) }
        ensures chunk { IfOk result (λ geometry. geometry.chunk ≡ chunk) }
        ensures stripes { IfOk result (λ geometry. geometry.stripes ≡ stripes) }
        ensures refusal { IfErr result (λ refusal. refusal ≡ Refusal.BadGeometry) }
    {
        Geometry::of_format(Format::One, members, chunk, stripes)
    }

    /// The geometry of a set of format 2 with these members, sectors of a chunk and stripes.
    ///
    /// Refused with `BadGeometry` where a number is outside its limits (3 to 8 members, a chunk of 8, 16, 32, 64, 128,
    /// 256, 512 or 1,024 sectors, 2 stripes at least, and at most as many as have their rows below sector 2^32 of a
    /// device), or where the data sectors, less the whole stripes with the 64 reserved ones, are less than a stripe.
    pub fn large(members: u8, chunk: u16, stripes: u32) -> Result<Geometry, Refusal>
        ensures within { IsOk result ↔ IsGeometry Two members chunk stripes }
        ensures format { IfOk result (λ geometry. geometry.format ≡ Two) }
        ensures members { IfOk result (λ geometry. geometry.members ≡ members) }
        ensures chunk { IfOk result (λ geometry. geometry.chunk ≡ chunk) }
        ensures stripes { IfOk result (λ geometry. geometry.stripes ≡ stripes) }
        ensures refusal { IfErr result (λ refusal. refusal ≡ Refusal.BadGeometry) }
    {
        Geometry::of_format(Format::Two, members, chunk, stripes)
    }

    /// The geometry of a set of this format with these members, sectors of a chunk and stripes. Refused with
    /// `BadGeometry` where `new` refuses it, or in format 2 `large`.
    pub fn of_format(
        format: Format,
        members: u8,
        chunk: u16,
        stripes: u32,
    ) -> Result<Geometry, Refusal>
        ensures within { IsOk result ↔ IsGeometry format members chunk stripes }
        ensures format { IfOk result (λ geometry. geometry.format ≡ format) }
        ensures members { IfOk result (λ geometry. geometry.members ≡ members) }
        ensures chunk { IfOk result (λ geometry. geometry.chunk ≡ chunk) }
        ensures stripes { IfOk result (λ geometry. geometry.stripes ≡ stripes) }
        ensures refusal { IfErr result (λ refusal. refusal ≡ Refusal.BadGeometry) }
    {
        let is_in_range = matches!(members, 3..=MOST_MEMBERS)
            && format.is_chunk(chunk)
            && stripes >= 2
            && stripes <= format.most_stripes();
        if !is_in_range
            || !rows_fit(chunk, stripes)
            || extents_in(format, members, chunk, stripes) == 0
        {
            return Err(Refusal::BadGeometry);
        }
        Ok(Geometry {
            format,
            members,
            chunk,
            stripes,
        })
    }

    /// The rows, 24 to 8,388,608, in format 2 to 4,294,967,280: as many sectors of each member hold data or parity.
    pub fn rows(&self) -> u64
        ensures { result ≡ rows_of self.now.chunk self.now.stripes }
    {
        u64::from(self.stripes) * u64::from(self.chunk)
    }

    /// The data sectors, 128 to 58,720,256, in format 2 80 to 30,064,770,960. The logical sectors of the set are
    /// numbered from 0, below this.
    pub fn data_sectors(&self) -> u64
        ensures { result ≡ data_sectors_of self.now.members self.now.chunk self.now.stripes }
    {
        data_sectors_in(self.members, self.chunk, self.stripes)
    }

    /// The logical sector with which the extents begin: 64, in format 2 the first from there on that begins a stripe.
    pub fn first_extent(&self) -> u64
        ensures { result ≡ first_extent self.now.format self.now.members self.now.chunk }
    {
        first_extent_in(self.format, self.members, self.chunk)
    }

    /// The blocks of an extent: 64, in format 2 the least 2^s stripes of which the set has at most 1,024.
    pub fn extent_blocks(&self) -> u64
        ensures { result ≡ extent_blocks self.now.format self.now.members self.now.chunk self.now.stripes }
    {
        extent_blocks_in(self.format, self.members, self.chunk, self.stripes)
    }

    /// The extents above the reserved data sectors, 1 to 1,024.
    pub fn extents(&self) -> u32
        ensures { result ≡ extents_of self.now.format self.now.members self.now.chunk self.now.stripes }
    {
        extents_in(self.format, self.members, self.chunk, self.stripes)
    }

    /// The place of a logical sector, which is below `data_sectors`.
    pub fn place(&self, logical: u64) -> Place
        requires { logical < data_sectors_of self.now.members self.now.chunk self.now.stripes }
        ensures placed { IsPlace self.now.members self.now.chunk logical result.member result.row }
        ensures member { result.member < self.now.members }
        ensures row { result.row < rows_of self.now.chunk self.now.stripes }
    {
        let members = u64::from(self.members);
        let sectors = u64::from(self.chunk);
        let chunk = logical / sectors;
        let stripe = chunk / (members - 1);
        Place {
            member: (chunk % members) as u8,
            row: stripe * sectors + logical % sectors,
        }
    }

    /// The member that holds the parity of a row, which is below `rows`.
    pub fn parity_member(&self, row: u64) -> u8
        requires { row < rows_of self.now.chunk self.now.stripes }
        ensures parity { IsParityOf self.now.members self.now.chunk row result }
        ensures only { (member : ℕ) → IsParityOf self.now.members self.now.chunk row member
            → member ≡ result }
    {
        let members = u64::from(self.members);
        let stripe = row / u64::from(self.chunk);
        // The parity of stripe 0 is on the last member, and moves to the member before from stripe to stripe.
        (members - 1 - stripe % members) as u8
    }

    /// The logical sector that lies on this member in this row, or `None` where the member holds the row's parity.
    /// The member is below `members`, and the row below `rows`.
    pub fn logical_of(&self, member: u8, row: u64) -> Option<u64>
        requires member { member < self.now.members }
        requires row { row < rows_of self.now.chunk self.now.stripes }
        ensures parity { IsNone result ↔ IsParityOf self.now.members self.now.chunk row member }
        ensures below { IfSome result
            (λ logical. logical < data_sectors_of self.now.members self.now.chunk self.now.stripes) }
        ensures placed { IfSome result
            (λ logical. IsPlace self.now.members self.now.chunk logical member row) }
        ensures found { (logical : ℕ) → IsPlace self.now.members self.now.chunk logical member row
            → result ≡ Some logical }
    {
        let parity = self.parity_member(row);
        if member == parity {
            return None;
        }
        let sectors = u64::from(self.chunk);
        let stripe = row / sectors;
        // The stripe's chunks lie on the members after the one with parity, and go on from member 0.
        let place_in_stripe = (member + self.members - parity - 1) % self.members;
        let chunk = stripe * u64::from(self.members - 1) + u64::from(place_in_stripe);
        Some(chunk * sectors + row % sectors)
    }
}

// The data sectors of a set of this shape.
fn data_sectors_in(members: u8, chunk: u16, stripes: u32) -> u64
    requires members_least { 3 ≤ members }
    requires members_most { members ≤ MOST_MEMBERS }
    requires rows_fit { FIRST_ROW + rows_of chunk stripes < 2 ^ 32 }
    ensures { result ≡ data_sectors_of members chunk stripes }
{
    u64::from(stripes) * u64::from(members - 1) * u64::from(chunk)
}

// Whether so many stripes of chunks of so many sectors have a place on a device.
fn rows_fit(chunk: u16, stripes: u32) -> bool
    ensures { IsTrue result ↔ (FIRST_ROW + rows_of chunk stripes < 2 ^ 32) }
{
    u64::from(FIRST_ROW) + u64::from(stripes) * u64::from(chunk) <= u64::from(u32::MAX)
}

// The blocks of a stripe.
fn stripe_blocks_in(members: u8, chunk: u16) -> u64
    requires members_least { 3 ≤ members }
    ensures { result ≡ stripe_blocks members chunk }
{
    u64::from(chunk) * u64::from(members - 1)
}

// The logical sector with which the extents begin.
fn first_extent_in(format: Format, members: u8, chunk: u16) -> u64
    requires members_least { 3 ≤ members }
    requires chunk_size { IsTrue (is_chunk_size format chunk) }
    ensures { result ≡ first_extent format members chunk }
{
    match format {
        Format::One => RESERVED_SECTORS,
        Format::Two => {
            let stripe = stripe_blocks_in(members, chunk);
            (RESERVED_SECTORS + stripe - 1) / stripe * stripe
        }
    }
}

// The blocks of an extent.
fn extent_blocks_in(format: Format, members: u8, chunk: u16, stripes: u32) -> u64
    requires members_least { 3 ≤ members }
    requires members_most { members ≤ MOST_MEMBERS }
    requires chunk_size { IsTrue (is_chunk_size format chunk) }
    requires rows_fit { FIRST_ROW + rows_of chunk stripes < 2 ^ 32 }
    ensures size { result ≡ extent_blocks format members chunk stripes }
    ensures some { 1 ≤ result }
{
    match format {
        Format::One => EXTENT_SECTORS,
        Format::Two => {
            let room = data_sectors_in(members, chunk, stripes).saturating_sub(first_extent_in(
                format, members, chunk,
            ));
            doubled_in(stripe_blocks_in(members, chunk), room)
        }
    }
}

// This size, or the first of its doubles of which so much room has at most 1,024.
fn doubled_in(size: u64, room: u64) -> u64
    requires least { 1 ≤ size }
    requires room { room < 2 ^ 40 }
    ensures size { result ≡ doubled 24 size room }
    ensures some { 1 ≤ result }
{
    let mut size = size;
    for doubling in 0..24u32 {
        if room / size <= MOST_EXTENTS {
            return size;
        }
        size *= 2;
    }
    size
}

// The extents of a set of this shape.
fn extents_in(format: Format, members: u8, chunk: u16, stripes: u32) -> u32
    requires members_least { 3 ≤ members }
    requires members_most { members ≤ MOST_MEMBERS }
    requires chunk_size { IsTrue (is_chunk_size format chunk) }
    requires rows_fit { FIRST_ROW + rows_of chunk stripes < 2 ^ 32 }
    ensures { result ≡ extents_of format members chunk stripes }
{
    let first = first_extent_in(format, members, chunk);
    let room = data_sectors_in(members, chunk, stripes).saturating_sub(first);
    (room / extent_blocks_in(format, members, chunk, stripes)).min(MOST_EXTENTS) as u32
}
