// A table from its saved form. docs/FORMATS.md has the layout.
//   reload     the table of a form, or refusal 9
// It takes any octets: they are read with no question asked, the table that comes is held against the rules (`rules`), and its form is
// written anew and must be the octets that came. So each table has one saved form. `reload` has no `requires`. Assumes nothing.
#![tactic(auto)]

ghost use Rattle.std.specs.Prelude.{◌≡◌};
ghost use Rattle.octets.specs.Octets.{equal};
ghost use Rattle.saved.specs.Form.{form_of};
ghost use Rattle.outcome.specs.Outcome.{started_of};
ghost use Rattle.reload.specs.Reload.{reload_of};

use calls::LARGEST_READING;
use refusal::Refusal;
use saved::LONGEST;
use table::Table;

// If the octets are the table's own form.
fn is_own(table: Table, form: &[u8]) -> bool
    ensures { result ≡ equal (form_of table) form.now }
{
    let mut own = [0u8; LONGEST];
    let n = saved::put_form(&mut own, 0, table);
    &own[..n] == form
}

// The table of a form, or refusal 9.
pub fn reload(form: &[u8]) -> Result<Table, Refusal>
    ensures { started_of result ≡ reload_of form.now }
{
    let pool = reading::pool_of(form).ok_or(Refusal::BrokenRule)?;
    let table = reading::table_of(form, pool);
    if table.last <= LARGEST_READING && rules::is_kept(table) && is_own(table, form) {
        Ok(table)
    } else {
        Err(Refusal::BrokenRule)
    }
}
