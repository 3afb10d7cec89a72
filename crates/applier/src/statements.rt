ghost use Rattle.std.specs.Prelude.{◌≡◌, ◌<◌, ◌+◌, ◌^◌, IfSome};
ghost use Rattle.std.specs.List.{slice_get};
ghost use Rattle.std.specs.Option.{option_copied};
ghost use Rattle.applier.specs.Appliers.{statement_behind, next_statement};

use ptc_statement::Statement;
use statement_log::Log;

/// The statement of an entry behind its first ones.
pub fn statement_behind(source: &Log, number: u64, started: usize) -> Option<&Statement>
    ensures value { option_copied result ≡ statement_behind started number source.now.entries }
    ensures bound { IfSome (option_copied result) (λ statement. started + 1 < 2 ^ 64) }
{
    match source.get(number) {
        None => None,
        Some(entry) => statement_at(entry.statements.as_slice(), started),
    }
}

fn statement_at(statements: &[Statement], place: usize) -> Option<&Statement>
    ensures value { option_copied result ≡ slice_get statements.now place }
    ensures bound { IfSome (option_copied result) (λ statement. place + 1 < 2 ^ 64) }
{
    if statements.len() <= place {
        return None;
    }
    Some(&statements[place])
}

/// The next statement of the worker's entry.
pub fn next_statement(source: &Log, entry: Option<u64>, started: usize) -> Option<&Statement>
    ensures value { option_copied result ≡ next_statement started entry source.now.entries }
    ensures bound { IfSome (option_copied result) (λ statement. started + 1 < 2 ^ 64) }
{
    match entry {
        None => None,
        Some(number) => statement_behind(source, number, started),
    }
}
