ghost use Rattle.std.specs.Prelude.{[]};
ghost use Rattle.file_state.specs.Keeps.{Keeps};

use file_rows::FileRows;
use file_scripts::{FileSchedule, FileScripts};
use line_checks::Marks;
use line_items::Counts;
use row_types::{SchemaList, Schemas};
use std::alloc::Global;

/// What the lines so far leave.
#[derive(Drop)]
pub struct FileState {
    pub marks: Marks,
    pub counts: Counts,
    pub schemas: Schemas,
    pub rows: FileRows,
    pub scripts: FileScripts,
    pub schedule: FileSchedule,
}

impl FileState {
    /// Of no lines.
    #[tactic(auto, using(crate::proofs::KeepLemmas::none_kept))]
    pub fn new(alloc: Global) -> FileState
        ensures { Keeps result [] }
    {
        FileState {
            marks: Marks::new(),
            counts: Counts::new(alloc),
            schemas: Schemas {
                tables: SchemaList::new(alloc),
            },
            rows: FileRows::new(alloc),
            scripts: FileScripts::new(alloc),
            schedule: FileSchedule::new(alloc),
        }
    }
}
