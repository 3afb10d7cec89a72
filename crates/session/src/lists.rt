ghost use Rattle.std.specs.Prelude.{◌≡◌, ◌+◌, ◌^◌, ◌++◌, ◌<◌, ◌≤◌, [], ◌∷◌, length, drop, vec_len, vec_capacity, OnOk};
ghost use Rattle.session.specs.Sessions.{ends_txn, lines_to_end, txn_lines};

use crate::stages::Stage;
use ptc_statement::{ScriptLine, ScriptStep};
use row_types::R;

/// Puts a number after the others, where there is reserved capacity for it.
pub fn put_last(numbers: &mut Vec<u32>, number: u32)
    requires { vec_len numbers.old < vec_capacity numbers.old }
    ensures { numbers.new.items ≡ numbers.old.items ++ number ∷ [] }
{
    match numbers.push(number) {
        Ok(()) => {}
        Err(_) => unreachable!(),
    }
}

/// Makes room for one more.
pub fn make_room(numbers: &mut Vec<u32>) -> R<()>
    ensures room { OnOk result (vec_len numbers.new < vec_capacity numbers.new) }
    ensures items { numbers.new.items ≡ numbers.old.items }
{
    numbers.reserve(1)?;
    Ok(())
}

pub fn ends_txn(step: &ScriptStep) -> bool
    ensures { result ≡ ends_txn step.now }
{
    match step {
        ScriptStep::Begin | ScriptStep::Run(_) => false,
        ScriptStep::Commit | ScriptStep::Rollback => true,
    }
}

/// The place behind the transaction that the lines from this place on begin with.
pub fn place_behind(lines: &[ScriptLine], first: usize, stage: Stage) -> usize
    requires { first ≤ length lines.now }
    ensures { result ≡ first + txn_lines stage (drop first lines.now) }
{
    let within = first <= lines.len();
    prove!(within);
    first + txn_lines(&lines[first..], stage)
}

/// How many lines the transaction has that these lines begin with.
fn txn_lines(lines: &[ScriptLine], stage: Stage) -> usize
    ensures value { result ≡ txn_lines stage lines.now }
    ensures bound { result < 2 ^ 63 }
{
    match stage {
        Stage::Between => 0,
        Stage::Within => lines_to_end(lines),
        Stage::Alone => 1,
    }
}

/// How many lines there are up to the first that ends a transaction, and with it.
fn lines_to_end(lines: &[ScriptLine]) -> usize
    ensures value { result ≡ lines_to_end lines.now }
    ensures bound { result < 2 ^ 63 }
{
    let most = lines.len();
    let mut rest = lines;
    let mut count = 0;
    while let Some((line, more)) = rest.split_first() {
        let within = count < most;
        prove!(within);
        count += 1;
        if ends_txn(&line.step) {
            return count;
        }
        rest = more;
    }
    count
}
