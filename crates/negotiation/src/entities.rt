// An update of the list as a type of its own, so that the list is tested by `molecule`'s function for any type.
ghost use Rattle.negotiation.specs.Updates as form;

use molecule::Entity;

pub struct Update;

impl Entity for Update {
    ghost ty = { form.UpdateTable };

    // The peer's transaction, the records, the source lock, and the fee rate.
    fn is(s: &[u8]) -> bool {
        molecule::has_items(s, 4)
            && molecule::is_bytes(molecule::field(s, 4, 0))
            && molecule::is_bytes(molecule::field(s, 4, 1))
            && molecule::is_bytes(molecule::field(s, 4, 2))
            && molecule::field_len(s, 4, 3) == 8
    }
}
