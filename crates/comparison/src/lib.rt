// The peer's transaction against ours: no cell dep, header dep, input, output or data of ours is gone, and output 0 is the funding cell. Cell deps may be
// reordered, output 0 and its data may change, and witnesses are not compared.
#![tactic(auto, using(crate::proofs::Ways::ways))]

ghost use Rattle.std.specs.Prelude.{◌≡◌, eqb, leb, ◌&&◌, List, ℕ, Bool};
ghost use Rattle.molecule.specs.Layout.{item_count};
ghost use Rattle.transaction.specs.Tx.{tx_at};
ghost use Rattle.error.specs.Outcome.{check};
ghost use Rattle.transaction.specs.Cells.{cells};
ghost use Rattle.rules.specs.Judge.{comparison};
ghost use Rattle.rules.specs.Lines.{verdict};
ghost use Rattle.comparison.specs.Together.{none_missing, funding_cell_first};

use transaction::fields;

// How many bytes an item of each list has.
const CELL_DEP_BYTES: u32 = 37;

const HEADER_DEP_BYTES: u32 = 32;

const INPUT_BYTES: u32 = 44;

fn same_version(ours: &[u8], peer: &[u8]) -> bool
    ensures { result ≡ eqb (tx_at ours.now).version (tx_at peer.now).version }
{
    let a = fields::version(ours);
    let b = fields::version(peer);
    a == b
}

// No fewer cell deps, and none of ours is missing.
fn keeps_cell_deps(ours: &[u8], peer: &[u8]) -> bool
    ensures { result ≡ none_missing (tx_at ours.now).cell_deps (tx_at peer.now).cell_deps }
{
    let a = fields::cell_deps(ours);
    let b = fields::cell_deps(peer);
    if molecule::fix_count(b) < molecule::fix_count(a) {
        return false;
    }
    item_lookup::fix_has_all(a, b, CELL_DEP_BYTES)
}

// Output 0, if present, has the expected lock and type, and no data where it is untyped.
fn is_funding_cell(lock: &[u8], udt: &[u8], peer: &[u8]) -> bool
    ensures { result ≡ funding_cell_first lock.now udt.now (cells (tx_at peer.now)) }
{
    let outputs = fields::outputs(peer);
    if molecule::item_count(outputs) == 0 {
        return true;
    }
    let o = molecule::item(outputs, 0);
    let l = fields::lock(o);
    if !lists::same(lock, l) {
        return false;
    }
    let t = fields::type_script(o);
    if !lists::same(udt, t) {
        return false;
    }
    if !udt.is_empty() {
        return true;
    }
    let d = fields::output_data(peer, 0);
    d.is_empty()
}

// Of a list of ours and the peer's: no fewer items, and those after 0 are as `extends` wants them.
fn keeps_after_first<'a, F: Fn(&'a [u8], &'a [u8]) -> bool>(
    ours: &'a [u8],
    peer: &'a [u8],
    extends: F,
) -> bool
    requires { F.IsAlwaysCallable extends }
    ensures { (test : List ℕ → List ℕ → Bool) → ((x y : _) (r : Bool) → F.post extends x y r → r ≡ test x.now y.now) → result
        ≡ (leb (item_count ours.now) (item_count peer.now) && test ours.now peer.now) }
{
    molecule::item_count(ours) <= molecule::item_count(peer) && extends(ours, peer)
}

// Whether the peer keeps what is ours and has the expected funding cell as output 0; the refusal is 5. Tests that read one list stand together, and where
// there is no transaction of ours no list is read: all of them have the one refusal, so their order can't be told. A struct of the two scripts, which the
// caller has apart, would be made for this call alone. An `Answer` would name the one refusal at each of the exits.
pub fn keeps_ours(ours: &[u8], peer: &[u8], lock: &[u8], udt: &[u8]) -> bool
    ensures { check 5 result ≡ verdict (comparison lock.now udt.now (tx_at ours.now) (tx_at peer.now)) }
{
    if !is_funding_cell(lock, udt, peer) {
        return false;
    }
    if !same_version(ours, peer) {
        return false;
    }
    if ours.is_empty() {
        return true;
    }
    if !keeps_cell_deps(ours, peer) {
        return false;
    }
    if !lists::fix_extends(
        fields::header_deps(ours),
        fields::header_deps(peer),
        HEADER_DEP_BYTES,
    ) {
        return false;
    }
    if !lists::fix_extends(fields::inputs(ours), fields::inputs(peer), INPUT_BYTES) {
        return false;
    }
    if !keeps_after_first(
        fields::outputs(ours),
        fields::outputs(peer),
        lists::items_extend,
    ) {
        return false;
    }
    keeps_after_first(
        fields::outputs_data(ours),
        fields::outputs_data(peer),
        lists::entries_extend,
    )
}
