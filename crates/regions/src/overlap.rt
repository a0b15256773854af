// Regions that overlap (H6): all of a list beside each other, and a new one beside those of a list.
ghost use Rattle.std.specs.Prelude.{◌*◌, ◌+◌, ◌-◌, ◌/◌, ◌≤◌, get_or, not, ◌≡◌};
ghost use Rattle.basis.specs.Choice.{either};
ghost use Rattle.basis.specs.Count.{every};
ghost use Rattle.regions.specs.Beside.{agrees, agrees_all, clear, follows};
ghost use Rattle.regions.specs.Rules.{alike, alike_all, all_agree, last_at, may_write, ranges_fit, start_at};

use crate::{Region, Regions, rules};

// H6. Where H4 holds (`ordered`) and the regions stand in the order of their addresses, one walk tells that all is well. Where most
// may be written, it is enough that no two ranges clash. Else each region that may be written is held against all.
pub fn all_agree(r: &Regions, ordered: bool) -> bool
    requires { (r.now.count ≤ 64) × (ordered ≡ ranges_fit r.now) }
    ensures { result ≡ all_agree r.now }
{
    if ordered & in_order(r) {
        return true;
    }
    if r.count / 2 < rules::held(Regions::WRITE, r.count, &r.permissions) {
        if all_clear(r) {
            return true;
        }
    }
    each_agrees(r)
}

// Whether no two regions overlap, but for regions of the same range. Each is held against those before it; places are taken by eight, so
// that a walk needs no remainder, and those behind it that this adds are told twice.
fn all_clear(r: &Regions) -> bool
    requires { r.now.count ≤ 64 }
    ensures { result ≡ every (λ i. every (λ j. clear (start_at r.now i) (last_at r.now i) (start_at r.now j) (last_at r.now j)) ((i / 8 + 1) * 8)) r.now.count }
{
    let mut ok = true;
    for i in 0..r.count as usize {
        ok &= clear_of_all(r, (i / 8 + 1) * 8, r.at(i));
    }
    ok
}

// Whether each region is behind the one before it, or has the same range.
fn in_order(r: &Regions) -> bool
    requires { r.now.count ≤ 64 }
    ensures { result ≡ every (λ k. follows (start_at r.now k) (last_at r.now k) (start_at r.now (k + 1)) (last_at r.now (k + 1))) (r.now.count - 1) }
{
    let mut ok = true;
    for k in 0..r.count.saturating_sub(1) as usize {
        ok &= r.at(k + 1).is_behind(r.at(k));
    }
    ok
}

// H6: each region that may be written, beside every one.
fn each_agrees(r: &Regions) -> bool
    requires { r.now.count ≤ 64 }
    ensures { result ≡ all_agree r.now }
{
    for i in 0..r.count as usize {
        if !one_agrees(r, r.at(i)) {
            return false;
        }
    }
    true
}

// One region beside every one.
fn one_agrees(r: &Regions, region: Region) -> bool
    requires { r.now.count ≤ 64 }
    ensures { result ≡ either (not (may_write region.permission)) (alike_all r.now.count r.now.holders r.now.starts r.now.lasts region.holder region.start region.last) }
{
    region.permission != Regions::WRITE || alike_all(r, region)
}

// A region that may be written, beside all regions.
fn alike_all(r: &Regions, region: Region) -> bool
    requires { r.now.count ≤ 64 }
    ensures { result ≡ alike_all r.now.count r.now.holders r.now.starts r.now.lasts region.holder region.start region.last }
{
    let mut ok = true;
    for k in 0..r.count as usize {
        ok &= region.is_alike(r.at(k));
    }
    ok
}

// Whether none of the first n regions overlaps this one, but for regions of the same range.
pub fn clear_of_all(r: &Regions, n: usize, region: Region) -> bool
    requires { n ≤ 64 }
    ensures { result ≡ every (λ j. clear region.start region.last (start_at r.now j) (last_at r.now j)) n }
{
    let mut ok = true;
    for k in 0..n {
        ok &= region.is_clear(r.at(k));
    }
    ok
}

// A new region, beside each earlier one.
pub fn agrees_each(r: &Regions, region: Region) -> bool
    requires { r.now.count ≤ 64 }
    ensures { result ≡ agrees_all r.now region.holder region.permission region.start region.last }
{
    let mut ok = true;
    for k in 0..r.count as usize {
        ok &= region.agrees(r.at(k));
    }
    ok
}

impl Region {
    // A new region beside an earlier one.
    fn agrees(self, other: Region) -> bool
        ensures { result ≡ agrees self.permission self.holder self.start self.last other.permission other.holder other.start other.last }
    {
        let kept = (self.permission != Regions::WRITE) & (other.permission != Regions::WRITE);
        kept | self.is_alike(other)
    }

    // A region that may be written beside another one: of the same VM, or clear of it.
    fn is_alike(self, other: Region) -> bool
        ensures { result ≡ alike self.holder self.start self.last other.holder other.start other.last }
    {
        (self.holder == other.holder) | self.is_clear(other)
    }

    // Two ranges: they are apart, or the same.
    fn is_clear(self, other: Region) -> bool
        ensures { result ≡ clear self.start self.last other.start other.last }
    {
        let apart = (other.last < self.start) | (self.last < other.start);
        let same = (self.start == other.start) & (self.last == other.last);
        apart | same
    }

    // This range is behind the other, or the same.
    fn is_behind(self, other: Region) -> bool
        ensures { result ≡ follows other.start other.last self.start self.last }
    {
        let same = (other.start == self.start) & (other.last == self.last);
        (other.last < self.start) | same
    }
}
