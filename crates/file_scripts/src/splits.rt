ghost use Rattle.std.specs.Prelude.{◌≡◌, ◌++◌, [], ◌∷◌, ℕ, IfOk, OnOk, map, Bool, if◌then◌else◌};
ghost use Rattle.file_text.specs.File.{nodes_from};
ghost use Rattle.file_scripts.specs.Scripts.{is_of as whose, scripts_by, others_by, locals_of, sessions_of};
ghost use Rattle.file_scripts.specs.Splits.{put_in};

use crate::scripts::{FileScripts, OwnScript, Owner};
use ptc_statement::{Script, Scripts};
use row_types::{Items, R};
use std::alloc::Global;

/// The scripts of the sessions on the source, and of those on each replica.
#[derive(Debug, Drop)]
pub struct SplitScripts {
    pub sessions: Scripts,
    pub locals: Items<Scripts>,
}

/// The scripts of one owner, and those of the others.
#[derive(Drop)]
pub(crate) struct Split {
    own: Scripts,
    others: Items<OwnScript>,
}

fn is_of(owner: Owner, other: Owner) -> bool
    ensures { result ≡ whose owner other }
{
    match (owner, other) {
        (Owner::Session, Owner::Session) => true,
        (Owner::Session, Owner::Local { replica: _ }) => false,
        (Owner::Local { replica: _ }, Owner::Session) => false,
        (Owner::Local { replica: ours }, Owner::Local { replica: theirs }) => theirs == ours,
    }
}

impl Split {
    fn put(&mut self, owner: Owner, script: OwnScript) -> R<()>
        ensures { OnOk result (self.new ≡ put_in owner script self.old) }
    {
        if is_of(owner, script.owner) {
            self.own.push(Script {
                lines: script.lines,
            })
        } else {
            self.others.push(script)
        }
    }
}

fn split_by(alloc: Global, owner: Owner, scripts: Items<OwnScript>) -> R<Split>
    ensures own { IfOk result (λ split. split.own ≡ scripts_by owner scripts) }
    ensures others { IfOk result (λ split. split.others ≡ others_by owner scripts) }
{
    let mut split = Split {
        own: Items::new(alloc),
        others: Items::new(alloc),
    };
    let mut left = scripts.items;
    'each: while left.len() > 0 {
        split.put(owner, left.remove(0))?;
    }
    Ok(split)
}

fn locals_in(alloc: Global, replicas: u32, scripts: Items<OwnScript>) -> R<Items<Scripts>>
    ensures { IfOk result (λ locals. locals ≡ map (λ (replica : ℕ). locals_of replica scripts) (nodes_from 1 replicas)) }
{
    let mut locals = Items::new(alloc);
    let mut left = scripts;
    for number in 0..replicas {
        let owner = Owner::Local {
            replica: number + 1,
        };
        let split = split_by(alloc, owner, left)?;
        locals.push(split.own)?;
        left = split.others;
    }
    Ok(locals)
}

/// The scripts of the sessions on the source, and of those on each of so many replicas.
pub fn split_scripts(alloc: Global, replicas: u32, scripts: FileScripts) -> R<SplitScripts>
    ensures sessions { IfOk result (λ split. split.sessions ≡ sessions_of scripts) }
    ensures locals { IfOk result (λ split. split.locals ≡ map (λ (replica : ℕ). locals_of replica scripts) (nodes_from 1 replicas)) }
{
    let split = split_by(alloc, Owner::Session, scripts.into_list())?;
    Ok(SplitScripts {
        sessions: split.own,
        locals: locals_in(alloc, replicas, split.others)?,
    })
}
