// Reduced forms and twins: document 01, "Half spaces and verdicts".
#![tactic(auto)]

ghost use Rattle.std.specs.Prelude.{◌≤◌, length};
ghost use Rattle.format.specs.Reading.{reading};
ghost use Rattle.twins.specs.Answers.{IsReducedOf, IsTwinNumber, IsTwinOf};

use claims::half_space_of;
use multiples::{is_multiple, pivot_of};
use reader::Sheet;
use reduction::{Form, reduced};
use refusals::Refusal;
use terms::Claim;

// The reduced form of a claim.
pub fn reduced_of(bytes: &[u8], claim: Claim) -> Result<Form, Refusal>
    ensures { IsReducedOf (reading bytes.now) claim result }
{
    let half_space = half_space_of(bytes, claim)?;
    Ok(reduced(half_space.coefficients(), half_space.constant()))
}

// The lowest claim before a claim that is its twin, if there is one.
pub fn first_twin(sheet: &Sheet<'_>, number: usize) -> Option<Claim>
    requires { (1 ≤ number) × (number ≤ length sheet.now.claims) }
    ensures { IsTwinNumber sheet.now number result }
{
    let half_space = sheet.nth_half_space(number);
    let form = reduced(half_space.coefficients(), half_space.constant());
    let pivot = pivot_of(&form.coefficients[..half_space.places()], form.constant);
    // The number itself is the answer, so no `find` over records. An earlier claim is looked at where it stands: most differ at the first number.
    for earlier in 1..number {
        let row = sheet.nth_row(earlier);
        let constant = sheet.nth_constant(earlier);
        if is_multiple(row, constant, &form, pivot) {
            return Some(Claim(earlier));
        }
    }
    None
}

// The lowest earlier claim that is a claim's twin, if there is one.
#[tactic(auto, unfolding(claims::specs::Held::claim_check))]
pub fn twin_of(bytes: &[u8], claim: Claim) -> Result<Option<Claim>, Refusal>
    ensures { IsTwinOf (reading bytes.now) claim result }
{
    let sheet = Sheet::read(bytes)?;
    sheet.half_space(claim)?;
    Ok(first_twin(&sheet, claim.0))
}
