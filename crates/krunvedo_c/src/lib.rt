// The exports: each call of crate `krunvedo` under the name that `include/krunvedo.h` declares, with that call's own promises. What a static library
// holds no other crate can call, so the calls stand in one of their own, and with them what is to be known of their arguments.
#![tactic(auto)]

ghost use Rattle.std.specs.Prelude.{◌≡◌, length};
ghost use Rattle.format.specs.Reading.{reading};
ghost use Rattle.format.specs.Read.{map_ok};
ghost use Rattle.reader.specs.Answers.{counts_of};
ghost use Rattle.sheet.specs.Held.{weights_of, start_of, target_of};
ghost use Rattle.claims.specs.Held.{half_space_of, claim_check};
ghost use Rattle.pairs.specs.Pairs.{pair_check, area_after};
ghost use Rattle.verdicts.specs.Judged.{verdict_check};
ghost use Rattle.listing.specs.Listed.{listing_check};
ghost use Rattle.walk.specs.Walk.{begin_of, step_of};
ghost use Rattle.traces.specs.Traces.{list_of};
ghost use Rattle.numbers.specs.Numbers.{check_is, counts_are, weights_are, tokens_are, target_is, half_space_is, marking_is, traced_is};
ghost use Rattle.krunvedo.specs.Exports.{record_of, IsPaired, IsVerdict, IsReducedSpace, IsTwinned, IsListingText, refusal_told, refusal_after};

use numbers::{
    Counted, Fired, Paired, Record, Refused, Space, Target, Tokens, Twinned, Verdict, Weighted,
    Written,
};
use terms::Place;

#[unsafe(no_mangle)]
pub extern "C" fn krunvedo_read(sheet: &[u8]) -> Counted
    ensures { result ≡ counts_are (map_ok counts_of (reading sheet.now)) }
{
    krunvedo::krunvedo_read(sheet)
}

#[unsafe(no_mangle)]
pub extern "C" fn krunvedo_weights(sheet: &[u8], t: usize) -> Weighted
    ensures { result ≡ weights_are (weights_of (reading sheet.now) (record { 0 = t })) }
{
    krunvedo::krunvedo_weights(sheet, t)
}

#[unsafe(no_mangle)]
pub extern "C" fn krunvedo_start(sheet: &[u8]) -> Tokens
    ensures { result ≡ tokens_are (start_of (reading sheet.now)) }
{
    krunvedo::krunvedo_start(sheet)
}

#[unsafe(no_mangle)]
pub extern "C" fn krunvedo_target(sheet: &[u8]) -> Target
    ensures { result ≡ target_is (target_of (reading sheet.now)) }
{
    krunvedo::krunvedo_target(sheet)
}

#[unsafe(no_mangle)]
pub extern "C" fn krunvedo_half_space(sheet: &[u8], i: usize) -> Space
    ensures { result ≡ half_space_is (half_space_of (reading sheet.now) (record { 0 = i })) }
{
    krunvedo::krunvedo_half_space(sheet, i)
}

#[unsafe(no_mangle)]
pub extern "C" fn krunvedo_claim_check(sheet: &[u8], i: usize) -> Refused
    ensures { result ≡ check_is (claim_check (reading sheet.now) (record { 0 = i })) }
{
    krunvedo::krunvedo_claim_check(sheet, i)
}

#[unsafe(no_mangle)]
pub extern "C" fn krunvedo_claim_record(sheet: &[u8], i: usize) -> Record
    ensures { result ≡ record_of (reading sheet.now) (record { 0 = i }) }
{
    krunvedo::krunvedo_claim_record(sheet, i)
}

// The transition stands last: with it before the areas, one register would be left for the pointer and the length of `marks`. C then
// puts both on the stack, and the kit's compiler splits them.
#[unsafe(no_mangle)]
pub extern "C" fn krunvedo_pair(
    sheet: &[u8],
    i: usize,
    marks: &mut [u8],
    queue: &mut [u16],
    t: usize,
) -> Paired
    ensures paired { IsPaired (reading sheet.now) (record { 0 = i }) (record { 0 = t }) (length marks.old) (length queue.old) result }
    ensures marks_after { marks.new ≡ area_after (pair_check (reading sheet.now) (record { 0 = i }) (record { 0 = t }) (length marks.old) (length queue.old)) marks.old }
    ensures queue_after { queue.new ≡ area_after (pair_check (reading sheet.now) (record { 0 = i }) (record { 0 = t }) (length marks.old) (length queue.old)) queue.old }
{
    krunvedo::krunvedo_pair(sheet, i, marks, queue, t)
}

#[unsafe(no_mangle)]
pub extern "C" fn krunvedo_verdict(
    sheet: &[u8],
    i: usize,
    marks: &mut [u8],
    queue: &mut [u16],
) -> Verdict
    ensures verdict { IsVerdict (reading sheet.now) (record { 0 = i }) (length marks.old) (length queue.old) result }
    ensures marks_after { marks.new ≡ area_after (verdict_check (reading sheet.now) (record { 0 = i }) (length marks.old) (length queue.old)) marks.old }
    ensures queue_after { queue.new ≡ area_after (verdict_check (reading sheet.now) (record { 0 = i }) (length marks.old) (length queue.old)) queue.old }
{
    krunvedo::krunvedo_verdict(sheet, i, marks, queue)
}

#[unsafe(no_mangle)]
pub extern "C" fn krunvedo_reduced(sheet: &[u8], i: usize) -> Space
    ensures { IsReducedSpace (reading sheet.now) (record { 0 = i }) result }
{
    krunvedo::krunvedo_reduced(sheet, i)
}

#[unsafe(no_mangle)]
pub extern "C" fn krunvedo_twin(sheet: &[u8], i: usize) -> Twinned
    ensures { IsTwinned (reading sheet.now) (record { 0 = i }) result }
{
    krunvedo::krunvedo_twin(sheet, i)
}

#[unsafe(no_mangle)]
pub extern "C" fn krunvedo_begin(sheet: &[u8]) -> Tokens
    ensures { result ≡ marking_is (begin_of (reading sheet.now)) }
{
    krunvedo::krunvedo_begin(sheet)
}

#[unsafe(no_mangle)]
pub extern "C" fn krunvedo_step(tokens: &mut [u16; Place::MOST], sheet: &[u8], t: usize) -> Refused
    ensures value { result ≡ check_is (step_of (reading sheet.now) (record { 0 = t }) (record { tokens = tokens.old })).answer }
    ensures tokens_value { tokens.new ≡ (step_of (reading sheet.now) (record { 0 = t }) (record { tokens = tokens.old })).marking.tokens }
{
    krunvedo::krunvedo_step(tokens, sheet, t)
}

#[unsafe(no_mangle)]
pub extern "C" fn krunvedo_fire_list(
    tokens: &mut [u16; Place::MOST],
    sheet: &[u8],
    list: &[usize],
) -> Fired
    ensures value { result ≡ traced_is (list_of (reading sheet.now) list.now (record { tokens = tokens.old })) }
    ensures tokens_value { tokens.new ≡ (list_of (reading sheet.now) list.now (record { tokens = tokens.old })).marking.tokens }
{
    krunvedo::krunvedo_fire_list(tokens, sheet, list)
}

#[unsafe(no_mangle)]
pub extern "C" fn krunvedo_listing(
    sheet: &[u8],
    marks: &mut [u8],
    queue: &mut [u16],
    text: &mut [u8],
) -> Written
    ensures listing_text { IsListingText (reading sheet.now) (length marks.old) (length queue.old) text.old text.new result }
    ensures marks_after { marks.new ≡ area_after (listing_check (reading sheet.now) (length marks.old) (length queue.old) (length text.old)) marks.old }
    ensures queue_after { queue.new ≡ area_after (listing_check (reading sheet.now) (length marks.old) (length queue.old) (length text.old)) queue.old }
{
    krunvedo::krunvedo_listing(sheet, marks, queue, text)
}

#[unsafe(no_mangle)]
pub extern "C" fn krunvedo_refusal_text(number: u8, detail: usize, text: &mut [u8]) -> Written
    ensures value { result ≡ refusal_told number detail text.old }
    ensures text_after { text.new ≡ refusal_after number detail text.old }
{
    krunvedo::krunvedo_refusal_text(number, detail, text)
}
