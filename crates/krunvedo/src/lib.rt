// The library for programs in other languages: every call over numbers and slices. `include/krunvedo.h` declares it for C, and crate `krunvedo_c` exports it.
// Each export asks the library and puts its answer into numbers, as `numbers/specs/Numbers.antt` sets them out.
#![tactic(auto)]

ghost use Rattle.std.specs.Prelude.{◌≡◌, length};
ghost use Rattle.format.specs.Read.{map_ok};
ghost use Rattle.format.specs.Reading.{reading};
ghost use Rattle.reader.specs.Answers.{counts_of};
ghost use Rattle.sheet.specs.Held.{weights_of, start_of, target_of};
ghost use Rattle.claims.specs.Held.{half_space_of, claim_check};
ghost use Rattle.pairs.specs.Pairs.{pair_check, area_after};
ghost use Rattle.verdicts.specs.Judged.{verdict_check};
ghost use Rattle.listing.specs.Listed.{listing_check};
ghost use Rattle.walk.specs.Walk.{begin_of, step_of};
ghost use Rattle.traces.specs.Traces.{list_of};
ghost use Rattle.numbers.specs.Numbers.{check_is, counts_are, weights_are, tokens_are, target_is, half_space_is, marking_is, traced_is};
ghost use Rattle.krunvedo.specs.Exports.{record_of, IsPaired, IsVerdict, IsReducedSpace, IsTwinned, IsListingText, refusal_told, refusal_after};

use numbers::{
    Counted, Fired, Paired, Record, Refused, Space, Target, Tokens, Twinned, Verdict, Weighted,
    Written,
};
use terms::{Claim, Place, Transition};
use walk::Marking;

#[unsafe(no_mangle)]
pub extern "C" fn krunvedo_read(sheet: &[u8]) -> Counted
    ensures { result ≡ counts_are (map_ok counts_of (reading sheet.now)) }
{
    Counted::from(counts::counts_of(sheet))
}

#[unsafe(no_mangle)]
pub extern "C" fn krunvedo_weights(sheet: &[u8], t: usize) -> Weighted
    ensures { result ≡ weights_are (weights_of (reading sheet.now) (record { 0 = t })) }
{
    Weighted::from(sheet::weights_of(sheet, Transition(t)))
}

#[unsafe(no_mangle)]
pub extern "C" fn krunvedo_start(sheet: &[u8]) -> Tokens
    ensures { result ≡ tokens_are (start_of (reading sheet.now)) }
{
    Tokens::from(sheet::start_of(sheet))
}

#[unsafe(no_mangle)]
pub extern "C" fn krunvedo_target(sheet: &[u8]) -> Target
    ensures { result ≡ target_is (target_of (reading sheet.now)) }
{
    Target::from(sheet::target_of(sheet))
}

#[unsafe(no_mangle)]
pub extern "C" fn krunvedo_half_space(sheet: &[u8], i: usize) -> Space
    ensures { result ≡ half_space_is (half_space_of (reading sheet.now) (record { 0 = i })) }
{
    Space::from(claims::half_space_of(sheet, Claim(i)))
}

#[unsafe(no_mangle)]
pub extern "C" fn krunvedo_claim_check(sheet: &[u8], i: usize) -> Refused
    ensures { result ≡ check_is (claim_check (reading sheet.now) (record { 0 = i })) }
{
    Refused::from(claims::claim_check(sheet, Claim(i)))
}

// An export returns no reference, so the record is told by where it stands.
#[unsafe(no_mangle)]
pub extern "C" fn krunvedo_claim_record(sheet: &[u8], i: usize) -> Record
    ensures { result ≡ record_of (reading sheet.now) (record { 0 = i }) }
{
    let told = Record::from(claims::record_range(sheet, Claim(i)));
    let part = claims::claim_record(sheet, Claim(i));
    Record {
        refusal: told.refusal,
        offset: told.offset,
        length: part.len(),
    }
}

// The transition stands last: with it before the areas, one register would be left for the pointer and the length of `marks`. C then
// puts both on the stack, and the kit's compiler splits them.
#[unsafe(no_mangle)]
pub extern "C" fn krunvedo_pair(
    sheet: &[u8],
    i: usize,
    marks: &mut [u8],
    queue: &mut [u16],
    t: usize,
) -> Paired
    ensures paired { IsPaired (reading sheet.now) (record { 0 = i }) (record { 0 = t }) (length marks.old) (length queue.old) result }
    ensures marks_after { marks.new ≡ area_after (pair_check (reading sheet.now) (record { 0 = i }) (record { 0 = t }) (length marks.old) (length queue.old)) marks.old }
    ensures queue_after { queue.new ≡ area_after (pair_check (reading sheet.now) (record { 0 = i }) (record { 0 = t }) (length marks.old) (length queue.old)) queue.old }
{
    Paired::from(pairs::pair_of(sheet, Claim(i), Transition(t), marks, queue))
}

#[unsafe(no_mangle)]
pub extern "C" fn krunvedo_verdict(
    sheet: &[u8],
    i: usize,
    marks: &mut [u8],
    queue: &mut [u16],
) -> Verdict
    ensures verdict { IsVerdict (reading sheet.now) (record { 0 = i }) (length marks.old) (length queue.old) result }
    ensures marks_after { marks.new ≡ area_after (verdict_check (reading sheet.now) (record { 0 = i }) (length marks.old) (length queue.old)) marks.old }
    ensures queue_after { queue.new ≡ area_after (verdict_check (reading sheet.now) (record { 0 = i }) (length marks.old) (length queue.old)) queue.old }
{
    Verdict::from(verdicts::verdict_of(sheet, Claim(i), marks, queue))
}

#[unsafe(no_mangle)]
pub extern "C" fn krunvedo_reduced(sheet: &[u8], i: usize) -> Space
    ensures { IsReducedSpace (reading sheet.now) (record { 0 = i }) result }
{
    Space::from(twins::reduced_of(sheet, Claim(i)))
}

#[unsafe(no_mangle)]
pub extern "C" fn krunvedo_twin(sheet: &[u8], i: usize) -> Twinned
    ensures { IsTwinned (reading sheet.now) (record { 0 = i }) result }
{
    Twinned::from(twins::twin_of(sheet, Claim(i)))
}

#[unsafe(no_mangle)]
pub extern "C" fn krunvedo_begin(sheet: &[u8]) -> Tokens
    ensures { result ≡ marking_is (begin_of (reading sheet.now)) }
{
    Tokens::from(walk::begin(sheet))
}

// The tokens are lent, and moved on.
#[unsafe(no_mangle)]
pub extern "C" fn krunvedo_step(tokens: &mut [u16; Place::MOST], sheet: &[u8], t: usize) -> Refused
    ensures value { result ≡ check_is (step_of (reading sheet.now) (record { 0 = t }) (record { tokens = tokens.old })).answer }
    ensures tokens_value { tokens.new ≡ (step_of (reading sheet.now) (record { 0 = t }) (record { tokens = tokens.old })).marking.tokens }
{
    let mut marking = Marking { tokens: *tokens };
    let check = walk::step(&mut marking, sheet, Transition(t));
    *tokens = marking.tokens;
    Refused::from(check)
}

// The tokens are moved on by the whole list, or not at all. Before the slices stand 2 and 4 words, a hidden pointer to the answer among them.
#[unsafe(no_mangle)]
pub extern "C" fn krunvedo_fire_list(
    tokens: &mut [u16; Place::MOST],
    sheet: &[u8],
    list: &[usize],
) -> Fired
    ensures value { result ≡ traced_is (list_of (reading sheet.now) list.now (record { tokens = tokens.old })) }
    ensures tokens_value { tokens.new ≡ (list_of (reading sheet.now) list.now (record { tokens = tokens.old })).marking.tokens }
{
    let mut marking = Marking { tokens: *tokens };
    let answer = traces::fire_list(&mut marking, sheet, list);
    *tokens = marking.tokens;
    Fired::from(answer)
}

// Before the slices stand 0, 2, 4 and 6 words. A hidden pointer to a longer answer would make it 5 before the queue.
#[unsafe(no_mangle)]
pub extern "C" fn krunvedo_listing(
    sheet: &[u8],
    marks: &mut [u8],
    queue: &mut [u16],
    text: &mut [u8],
) -> Written
    ensures listing_text { IsListingText (reading sheet.now) (length marks.old) (length queue.old) text.old text.new result }
    ensures marks_after { marks.new ≡ area_after (listing_check (reading sheet.now) (length marks.old) (length queue.old) (length text.old)) marks.old }
    ensures queue_after { queue.new ≡ area_after (listing_check (reading sheet.now) (length marks.old) (length queue.old) (length text.old)) queue.old }
{
    Written::from(listing::listing_of(sheet, marks, queue, text))
}

// The line has the two numbers alone, so they need not be a refusal's.
#[unsafe(no_mangle)]
pub extern "C" fn krunvedo_refusal_text(number: u8, detail: usize, text: &mut [u8]) -> Written
    ensures value { result ≡ refusal_told number detail text.old }
    ensures text_after { text.new ≡ refusal_after number detail text.old }
{
    Written::from(listing::refusal_text(number, detail, text))
}
