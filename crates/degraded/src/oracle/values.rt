//! The values of one row in memory.
ghost use Rattle.std.specs.Prelude.{◌≡◌, ◌<◌, ◌≤◌, ◌↔◌, ℕ, IsTrue, MatchOption, map, unwrap_or};
ghost use Rattle.parity.specs.Xor.{xor_of, xor_of_all, zero_sector, IsSoundRow};
ghost use Rattle.degraded.specs.RowValue.{others, direct, value, row_values};
ghost use Rattle.degraded.specs.Oracle.{rows_of_sources};

use super::sources::RowSources;
use parity::{is_zero, xor_into};
use sector_model::Sector;

impl RowSources {
    /// Puts the value of a member, which is below `members`, into `to`: the entry's sector if there is one, else the
    /// member's own if it counts, else the XOR of the others.
    pub fn value_of(&self, member: u8, to: &mut Sector)
        requires { member < self.now.members }
        ensures { (row : ℕ) → to.new ≡ value (rows_of_sources self.now) row member }
    {
        match self.known_directly(member) {
            Some(sector) => *to = *sector,
            None => self.xor_others(member, to),
        }
    }

    /// Whether the values of all members XOR to zero.
    pub fn is_sound(&self) -> bool
        ensures { (row : ℕ) → IsTrue result ↔ IsSoundRow (row_values (rows_of_sources self.now) row) }
    {
        let mut sum = [0; 512];
        self.xor_values(&mut sum);
        is_zero(&sum)
    }

    // What is known of a member without the others.
    fn known_directly(&self, member: u8) -> Option<&Sector>
        requires { member < self.now.members }
        ensures { (row : ℕ) → MatchOption result
            (direct (rows_of_sources self.now) row member ≡ None)
            (λ sector. direct (rows_of_sources self.now) row member ≡ Some sector.now) }
    {
        let place = usize::from(member);
        match &self.entry[place] {
            Some(sector) => Some(sector),
            None if self.trusted[place] => Some(&self.own[place]),
            None => None,
        }
    }

    // XORs what is known of a member into `to`.
    fn xor_known(&self, member: u8, to: &mut Sector)
        requires { member < self.now.members }
        ensures { (row : ℕ) → to.new
            ≡ xor_of to.old (unwrap_or (direct (rows_of_sources self.now) row member) zero_sector) }
    {
        if let Some(sector) = self.known_directly(member) {
            xor_into(to, sector);
        }
    }

    // The XOR of what is known of all members but one.
    fn xor_others(&self, member: u8, to: &mut Sector)
        ensures { (row : ℕ) → to.new ≡ xor_of_all (map
            (λ other. unwrap_or (direct (rows_of_sources self.now) row other) zero_sector)
            (others self.now.members member)) }
    {
        to.fill(0);
        for other in 0..self.members {
            if other != member {
                self.xor_known(other, to);
            }
        }
    }

    // The XOR of the values of all members.
    fn xor_values(&self, to: &mut Sector)
        ensures { (row : ℕ) → to.new ≡ xor_of_all (row_values (rows_of_sources self.now) row) }
    {
        let mut sector = [0; 512];
        to.fill(0);
        for member in 0..self.members {
            self.value_of(member, &mut sector);
            xor_into(to, &sector);
        }
    }
}
