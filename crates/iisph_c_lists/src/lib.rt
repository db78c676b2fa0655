// The C interface to the check of one contact list (include/iisph.h). It makes an archive of its own, so that what a
// step runs through has no caller beside the step: see docs/DECISIONS.md.
#![tactic(auto)]

ghost use Rattle.std.specs.Prelude.{◌≡◌, ◌≤◌, length};
ghost use Rattle.iisph_c_lists.specs.Lists.{list_asked, looked_code, looked_counts, list_code, list_counts};
ghost use Rattle.iisph_c_lists.specs.Lists.{ListTo};
ghost use Rattle.iisph_codes.specs.Numbers.{counts_needed};

use iisph_codes::{COUNTS, TOO_SHORT, write_refusal};
use scene_check::contact_list::Looked;
use scene_format::Refusal;
use scene_lists::{Contacts, check_list};

// The numbers that contacts have in a call.
const FLUID_FLUID: u64 = 0;

const FLUID_BOUNDARY: u64 = 1;

const BOUNDARY_BOUNDARY: u64 = 2;

// What a call returns that asks for a list that is not there.
const NO_LIST: u64 = 97;

// The check of the list that a call asks for.
fn list_asked(
    scene: &[u8],
    contacts: u64,
    model: usize,
    particle: usize,
) -> Result<Option<Looked>, Refusal>
    ensures { result ≡ list_asked scene.now contacts model particle }
{
    if contacts == FLUID_FLUID {
        return check_list(scene, Contacts::FluidFluid, model, particle);
    }
    if contacts == FLUID_BOUNDARY {
        return check_list(scene, Contacts::FluidBoundary, model, particle);
    }
    if contacts == BOUNDARY_BOUNDARY {
        return check_list(scene, Contacts::BoundaryBoundary, model, particle);
    }
    Ok(None)
}

// The looks at a list, and the offset of the contact that is refused.
fn write_looked(looked: Looked, counts: &mut [u64]) -> u64
    requires { counts_needed ≤ length counts.old }
    ensures { (result ≡ looked_code looked) × (counts.new ≡ looked_counts looked counts.old) }
{
    let walk = looked.walk;
    counts[0] = looked.looks as u64;
    match walk {
        Ok(_) => 0,
        Err(refusal) => write_refusal(refusal, counts),
    }
}

// The answer of a list's check.
fn write_list(answer: Result<Option<Looked>, Refusal>, counts: &mut [u64]) -> u64
    requires { counts_needed ≤ length counts.old }
    ensures { (result ≡ list_code answer) × (counts.new ≡ list_counts answer counts.old) }
{
    match answer {
        Ok(Some(looked)) => write_looked(looked, counts),
        Ok(None) => NO_LIST,
        Err(refusal) => write_refusal(refusal, counts),
    }
}

// The check of one contact list for refusal 7, and the looks at its contacts: 0 or 107, 97 if there is no such list; 99
// where `counts` is too short, 101 to 106 where no list is looked at.
#[unsafe(no_mangle)]
pub extern "C" fn iisph_check_list(
    scene: &[u8],
    contacts: u64,
    model: usize,
    particle: usize,
    counts: &mut [u64],
) -> u64
    ensures { ListTo (list_asked scene.now contacts model particle) counts.old result counts.new }
{
    if counts.len() < COUNTS {
        return TOO_SHORT;
    }
    write_list(list_asked(scene, contacts, model, particle), counts)
}
