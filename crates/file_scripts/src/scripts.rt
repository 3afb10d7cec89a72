ghost use Rattle.std.specs.Prelude.{◌≡◌, ◌<◌, ◌++◌, [], ◌∷◌, vec_len, length, OnOk, OnErr};
ghost use Rattle.file_scripts.specs.Scripts.{begun, with_line};

use ptc_statement::{ScriptLine, ScriptLines};
use row_types::{Items, R};
use std::alloc::Global;
use std::marker::Model;

/// Whose script it is.
#[derive(Clone, Copy, Debug, PartialEq, Eq)]
pub enum Owner {
    /// a session on the source
    Session,
    /// a session on a replica
    Local { replica: u32 },
}

/// A script, and whose it is.
#[derive(Debug, Drop)]
pub struct OwnScript {
    pub owner: Owner,
    pub lines: ScriptLines,
}

impl OwnScript {
    /// Puts a line at the end; a refusal leaves the script as it was.
    pub fn push(&mut self, line: ScriptLine) -> R<()>
        ensures ok { OnOk result (self.new ≡ record { owner = self.old.owner; lines = self.old.lines ++ line ∷ [] }) }
        ensures err { OnErr result (self.new ≡ self.old) }
    {
        self.lines.push(line)
    }
}

/// The scripts of a file, in the order of their lines, as far as it is read.
#[derive(Debug, Drop)]
pub struct FileScripts {
    scripts: Vec<OwnScript>,
}

impl Model for FileScripts {
    ghost use Rattle.std.specs.Prelude.{List};
    ghost use Rattle.std.specs.Coded.{codes};
    ghost use Rattle.ptc_statement.specs.contracts.expressions.Expr as expr;
    ghost use Rattle.ptc_statement.specs.contracts.conditions.Cond as condition;
    ghost use Rattle.file_scripts.specs.declared.scripts.OwnScript.{OwnScript};

    ghost Value = { List OwnScript };

    ghost coded = { Prim.hlevel (codes, expr.the_row.coded, condition.the_row.coded) };

    ghost view = { λ file. file.scripts.items };
}

impl FileScripts {
    /// No scripts.
    pub fn new(alloc: Global) -> FileScripts
        ensures { result ≡ [] }
    {
        FileScripts {
            scripts: Vec::new(alloc),
        }
    }

    /// The scripts so far.
    pub fn as_slice(&self) -> &[OwnScript]
        ensures { result.now ≡ self.now }
    {
        self.scripts.as_slice()
    }

    /// Begins the script of a further session; out of memory changes nothing.
    pub fn begin(&mut self, alloc: Global, owner: Owner) -> R<()>
        ensures ok { OnOk result (self.new ≡ begun owner self.old) }
        ensures err { OnErr result (self.new ≡ self.old) }
    {
        self.scripts.push(OwnScript {
            owner,
            lines: Items::new(alloc),
        })?;
        Ok(())
    }

    /// Puts a line at the end of the last script; out of memory changes nothing.
    pub fn push(&mut self, line: ScriptLine) -> R<()>
        requires { 0 < length self.old }
        ensures ok { OnOk result (self.new ≡ with_line line self.old) }
        ensures err { OnErr result (self.new ≡ self.old) }
    {
        push_last(&mut self.scripts, line)
    }

    /// The scripts, without a copy.
    pub(crate) fn into_list(self) -> Items<OwnScript>
        ensures { result ≡ self }
    {
        Items {
            items: self.scripts,
        }
    }
}

/// Puts a line at the end of the last of these scripts.
fn push_last(scripts: &mut Vec<OwnScript>, line: ScriptLine) -> R<()>
    requires { 0 < vec_len scripts.old }
    ensures ok { OnOk result (scripts.new.items ≡ with_line line scripts.old.items) }
    ensures err { OnErr result (scripts.new.items ≡ scripts.old.items) }
{
    let last = scripts.len() - 1;
    scripts[last].push(line)
}
