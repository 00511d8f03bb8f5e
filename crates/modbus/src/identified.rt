// The parts of a card's identity as data units: the objects of function 43, type 14, and the serial number of function 17.
ghost use Rattle.std.specs.Prelude.{◌≡◌, [], ◌∷◌, ◌+◌, ◌≤◌, length, map};
ghost use Rattle.std.proofs.lemmas.List.Edits.{sets};
ghost use Rattle.identity.specs.Identity.{Identity, object, objects, chosen, listed, part_unit};
ghost use Rattle.identity.specs.declared.Part.TheVariants.{Objects, Serial};

use crate::copies::copy_at;
use identity::{Identity, LAST_OBJECT, LENGTH, MODEL, Part, SERIAL};

// Puts the part's data unit at the start of `out`, as far as it fits, and tells its length.
pub(crate) fn put_part(part: Part, identity: &Identity, out: &mut [u8]) -> usize
    ensures count { result ≡ length (part_unit identity.now part) }
    ensures lent { out.new ≡ sets out.old 0 (part_unit identity.now part) }
{
    match part {
        Part::Objects(code, first, last) => put_objects(code, first, last, identity, out),
        Part::Serial => put_serial(identity, out),
    }
}

// 17: the byte count, and the serial number.
fn put_serial(identity: &Identity, out: &mut [u8]) -> usize
    ensures count { result ≡ length (part_unit identity.now Serial) }
    ensures lent { out.new ≡ sets out.old 0 (part_unit identity.now Serial) }
{
    let all: &[u8] = identity;
    let head = [17, 16];
    let at = copy_at(&head, out, 0);
    copy_at(&all[SERIAL..LENGTH], out, at)
}

// The text of each object, from 00h on: VendorName, ProductCode, MajorMinorRevision, VendorUrl, ProductName, ModelName, UserApplicationName.
#[tactic(auto, unfolding(identity::specs::Identity::revision, identity::specs::Identity::model))]
fn texts(identity: &Identity) -> [&[u8]; 7]
    ensures { map (λ text. text.now) result ≡ map (λ o. o.text) (objects identity.now) }
{
    let all: &[u8] = identity;
    let revision = &all[..MODEL];
    let model = &all[MODEL..SERIAL];
    [
        b"Valley Water Card",
        b"",
        revision,
        b"",
        b"Line card",
        model,
        b"",
    ]
}

// 43: type, identification code, conformity, more follows, next object, how many objects, and those of them that are asked for.
fn put_objects(code: u8, first: u8, last: u8, identity: &Identity, out: &mut [u8]) -> usize
    ensures count { result ≡ length (part_unit identity.now (Objects code first last)) }
    ensures lent { out.new ≡ sets out.old 0 (part_unit identity.now (Objects code first last)) }
{
    let head = [43, 14, code, 0x82, 0, 0, count(first, last)];
    let mut at = copy_at(&head, out, 0);
    for (i, text) in texts(identity).iter().enumerate() {
        at = put_object(first, last, i as u8, text, out, at);
    }
    at
}

// How many objects there are from the first to the last, of any identity.
#[tactic(auto, using(crate::proofs::Objects::objects_count))]
fn count(first: u8, last: u8) -> u8
    ensures { (i : Identity) → result ≡ length (chosen first last (objects i)) }
{
    (last.min(LAST_OBJECT) + 1).saturating_sub(first)
}

// One object from `at` on, if it is asked for: its number, its length, its bytes. Tells the place behind it. The first and the last object stand apart, as the
// definition `part_unit` has them.
fn put_object(first: u8, last: u8, number: u8, text: &[u8], out: &mut [u8], at: usize) -> usize
    requires { at + 2 + length text.now ≤ 255 }
    ensures behind { result ≡ at + length (listed (chosen first last (object number text.now ∷ []))) }
    ensures lent { out.new ≡ sets out.old at (listed (chosen first last (object number text.now ∷ []))) }
{
    if number < first || last < number {
        return at;
    }
    let head = [number, text.len() as u8];
    let body = copy_at(&head, out, at);
    copy_at(text, out, body)
}
