// The rules about regions, each in a walk of its own: H1 to H5, and all of them. A walk has no exit, so that it compiles to vector code.
// That there are at most 64 stays a `requires` of each, and no invariant of the type: the C interface, where any byte may stand in `count`.
ghost use Rattle.std.specs.Prelude.{◌≤◌, ◌≡◌};
ghost use Rattle.basis.specs.Bounds.{empty_rest};
ghost use Rattle.basis.specs.Choice.{both};
ghost use Rattle.regions.specs.Rules.{few_each, held, holders_fit, kept, known, permissions_fit, ranges_fit};

use crate::{Regions, overlap};

// H1 to H6, of at most 64 regions.
pub fn all_kept(r: &Regions, vms: u8) -> bool
    requires { r.now.count ≤ 64 }
    ensures { result ≡ kept vms r.now }
{
    let ordered = ranges_fit(r);
    holders_fit(r, vms)
        & permissions_fit(r)
        & ordered
        & few_each(r)
        & overlap::all_agree(r, ordered)
        & bytes_rest(r, r.count)
        & words_rest(r, r.count)
}

// H2.
fn holders_fit(r: &Regions, vms: u8) -> bool
    requires { r.now.count ≤ 64 }
    ensures { result ≡ holders_fit vms r.now }
{
    let mut ok = true;
    for k in 0..r.count as usize {
        ok &= r.holders[k] < vms;
    }
    ok
}

// H3.
fn permissions_fit(r: &Regions) -> bool
    requires { r.now.count ≤ 64 }
    ensures { result ≡ permissions_fit r.now }
{
    let mut ok = true;
    for k in 0..r.count as usize {
        ok &= is_known(r.permissions[k]);
    }
    ok
}

// H3, of one permission.
pub fn is_known(permission: u8) -> bool
    ensures { result ≡ known permission }
{
    (Regions::READ <= permission) & (permission <= Regions::EXECUTE)
}

// H4.
fn ranges_fit(r: &Regions) -> bool
    requires { r.now.count ≤ 64 }
    ensures { result ≡ ranges_fit r.now }
{
    let mut ok = true;
    for k in 0..r.count as usize {
        ok &= r.starts[k] <= r.lasts[k];
    }
    ok
}

// H5; so few regions in all are few of each.
fn few_each(r: &Regions) -> bool
    requires { r.now.count ≤ 64 }
    ensures { result ≡ few_each r.now.count r.now.holders }
{
    if r.count <= Regions::EACH {
        return true;
    }
    let mut ok = true;
    for v in 0..8 {
        ok &= held(v, r.count, &r.holders) <= Regions::EACH;
    }
    ok
}

// How many of the regions have the number v here: as holders, those of VM v.
pub fn held(v: u8, count: u8, numbers: &[u8; 64]) -> u8
    requires { count ≤ 64 }
    ensures { result ≡ held numbers.now v count }
{
    let mut m: u8 = 0;
    for k in 0..count as usize {
        m += u8::from(numbers[k] == v);
    }
    m
}

// H1: whether the places from n on have no holder and no permission.
pub fn bytes_rest(r: &Regions, n: u8) -> bool
    requires { n ≤ 64 }
    ensures { result ≡ both (empty_rest n r.now.holders) (empty_rest n r.now.permissions) }
{
    let mut bits: u8 = 0;
    for k in n as usize..64 {
        bits |= r.holders[k] | r.permissions[k];
    }
    bits == 0
}

// H1: whether they have no address. The walk stands twice, for bytes and for addresses: one for both would ask a trait for its zero and its
// `|`, with contracts of their own, and is no plainer.
pub fn words_rest(r: &Regions, n: u8) -> bool
    requires { n ≤ 64 }
    ensures { result ≡ both (empty_rest n r.now.starts) (empty_rest n r.now.lasts) }
{
    let mut bits: u32 = 0;
    for k in n as usize..64 {
        bits |= r.starts[k] | r.lasts[k];
    }
    bits == 0
}
