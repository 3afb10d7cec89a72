ghost use Rattle.std.specs.Prelude.{◌≡◌, ◌+◌, ◌<◌, ◌^◌, []};
ghost use Rattle.file_text.specs.Context.{rank as the_rank, step_opens, is_script};
ghost use Rattle.file_text.specs.Causes.{at_or_behind as is_at_or_behind, needs as does_need};
ghost use Rattle.line_checks.specs.MarksOf.{IsMarked, none_marked, marked, with_replicas as with_these_replicas, with_step as with_this_step, has_needed as has_this, has_what_it_needs as has_needs, in_order};

use file_text::Section;
use ptc_statement::ScriptStep;

/// What the lines so far leave of the rules on order and on what may be said once.
#[derive(Clone, Copy)]
pub struct Marks {
    /// the section of the last line that has one
    pub last: Option<Section>,
    /// whether a line of the section stands there
    pub header: bool,
    pub isolation: bool,
    pub replica_line: bool,
    pub table_line: bool,
    /// TABLE lines, at most 16
    pub tables: u32,
    /// the number of replicas; 0 before the REPLICAS line
    pub replicas: u32,
    /// behind END
    pub ended: bool,
    /// in a transaction of a script that is not ended
    pub in_transaction: bool,
}

fn rank(section: Section) -> u8
    ensures { result ≡ the_rank section }
{
    match section {
        Section::PtcLines => 0,
        Section::IsolationLines => 1,
        Section::ReplicaLines => 2,
        Section::TableLines => 3,
        Section::RowLines => 4,
        Section::SessionLines => 5,
        Section::LocalLines => 6,
        Section::ScheduleLines => 7,
        Section::EndLines => 8,
    }
}

fn at_or_behind(last: Option<Section>, section: Section) -> bool
    ensures { result ≡ is_at_or_behind last section }
{
    match last {
        None => true,
        Some(last) => rank(last) <= rank(section),
    }
}

fn needs(section: Section, needed: Section) -> bool
    ensures { result ≡ does_need section needed }
{
    rank(needed) + 1 <= rank(section)
}

fn has_needed(needed: bool, there: bool) -> bool
    ensures { result ≡ has_this needed there }
{
    if needed { there } else { true }
}

impl Marks {
    /// Of no lines.
    #[tactic(auto, using(crate::proofs::MarkLemmas::none_is_marked))]
    pub fn new() -> Marks
        ensures value { result ≡ none_marked }
        ensures marked { IsMarked result [] }
    {
        Marks {
            last: None,
            header: false,
            isolation: false,
            replica_line: false,
            table_line: false,
            tables: 0,
            replicas: 0,
            ended: false,
            in_transaction: false,
        }
    }

    fn has_what_it_needs(&self, section: Section) -> bool
        ensures { result ≡ has_needs section self.now }
    {
        has_needed(needs(section, Section::PtcLines), self.header)
            && has_needed(needs(section, Section::ReplicaLines), self.replica_line)
            && has_needed(needs(section, Section::TableLines), self.table_line)
    }

    /// Whether a line of the section may stand here.
    pub fn is_in_order(&self, section: Section) -> bool
        ensures { result ≡ in_order section self.now }
    {
        at_or_behind(self.last, section) && self.has_what_it_needs(section)
    }

    /// Whether a script goes on here.
    pub fn is_in_script(&self) -> bool
        ensures { result ≡ is_script self.now.last }
    {
        match self.last {
            Some(Section::SessionLines) => true,
            Some(Section::LocalLines) => true,
            _ => false,
        }
    }

    /// A line of a section.
    pub fn mark(&mut self, section: Section)
        requires { self.old.tables < 2 ^ 31 }
        ensures { self.new ≡ marked section self.old }
    {
        self.last = Some(section);
        match section {
            Section::PtcLines => self.header = true,
            Section::IsolationLines => self.isolation = true,
            Section::ReplicaLines => self.replica_line = true,
            Section::TableLines => {
                self.table_line = true;
                self.tables += 1;
            }
            Section::EndLines => self.ended = true,
            _ => {}
        }
    }

    /// More replicas, at most 8.
    pub fn add_replicas(&mut self, count: u32)
        requires few { self.old.replicas < 2 ^ 31 }
        requires more { count < 2 ^ 31 }
        ensures { self.new ≡ with_these_replicas count self.old }
    {
        self.replicas += count;
    }

    /// A step of a script.
    pub fn step(&mut self, step: &ScriptStep)
        ensures { self.new ≡ with_this_step step.now self.old }
    {
        match step {
            ScriptStep::Begin => self.in_transaction = true,
            ScriptStep::Commit => self.in_transaction = false,
            ScriptStep::Rollback => self.in_transaction = false,
            ScriptStep::Run(_) => {}
        }
    }
}
