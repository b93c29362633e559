//! Where on the screen the values are shown that a READ asks for.
#![tactic(auto)]

ghost use Rattle.std.specs.Prelude.{◌≡◌, ◌++◌, None, [], IfOk, IfSome, OnOk, map};
ghost use Rattle.operator_desk.specs.Asked as spec;
ghost use Rattle.operator_desk.specs.Asked.{AsksTheSame, places_known};

use crate::judging::{Holds, Wanted, bad_answer};
use code_items::Code;
use code_items::instr::{Instr, ScreenInstr};
use operating::{Scene, ShownAt};
use std::alloc::{AllocError, Global};
use terminal_screen::{ShownField, lay_over};
use waiting_fields::{Read, reads_of};
use xvalue::Kind;

/// The columns of a row.
const COLUMNS: usize = 80;

/// Where the line that is wanted is typed.
#[derive(Clone, Copy)]
pub enum WaitingPlace {
    /// In this field.
    Field(ShownField),
    /// Behind what was printed last.
    Behind,
    /// In a field that isn't on the screen, or of which nothing is known.
    Unknown,
}

/// What an instruction takes a line for.
#[derive(Clone, Copy)]
enum Taker {
    /// It takes none.
    Nothing,
    /// For the line itself.
    Line,
    /// For a value of this kind.
    Value(Kind),
}

/// What an instruction draws at a place of the screen that the cursor doesn't give.
#[derive(Clone, Copy)]
enum Drawing {
    Nothing,
    /// A value.
    Value,
    /// A blank screen.
    Blank,
}

/// Which READ an instruction belongs to, and the number of its field there, both from 0.
#[derive(Clone, Copy)]
struct Member {
    read: usize,
    field: usize,
}

/// What is known of a place of the code.
#[derive(Clone, Copy)]
struct Place {
    takes: Taker,
    draws: Drawing,
}

/// A field whose row is counted from the first row that was ever sent out; none where it isn't shown.
type Standing = Option<ShownField>;

/// An answer that lies over the drawing.
#[derive(Drop)]
struct Laid {
    /// Its field, counted from the first row that was ever sent out.
    field: ShownField,
    text: Vec<u8>,
    /// The row below it as it was then.
    under: [u8; 80],
}

/// What is known of the fields of a code.
#[derive(Drop)]
pub struct Gets {
    places: Vec<Place>,
    /// By place, where a READ asks for the value that is shown there, or takes a line for it.
    members: Vec<Option<Member>>,
    /// By READ, where its fields were shown since it took lines last; none where they can't be told apart.
    shown: Vec<Vec<Standing>>,
    /// The READ that waits, and where its fields were shown before it.
    asking: Option<usize>,
    asked: Vec<Standing>,
    /// Those of them that are on the screen.
    pub fields: Vec<ShownField>,
    answers: Vec<Laid>,
    sent: RowCount,
    pub waiting: WaitingPlace,
    /// The number of the field that waits, from 1.
    pub number: usize,
    /// What the line is for.
    pub wanted: Wanted,
}

/// How many rows were sent out, counted as they come.
#[derive(Clone, Copy)]
struct RowCount {
    bytes: usize,
    rows: usize,
}

impl RowCount {
    /// Counts the rows that were sent out since.
    fn count(&mut self, sent: &[u8]) {
        let new = &sent[self.bytes.min(sent.len())..];
        let rows = new.iter().filter(|byte| **byte == b'\n').count();
        self.rows = self.rows.saturating_add(rows);
        self.bytes = sent.len();
    }
}

/// What an instruction draws.
fn drawing_at(instr: &Instr) -> Drawing
    ensures { result ≡ spec.drawn_there instr.now }
{
    match instr {
        Instr::Screen(ScreenInstr::Say(_)) | Instr::Screen(ScreenInstr::SayOn(_)) => Drawing::Value,
        Instr::Screen(ScreenInstr::Clear) => Drawing::Blank,
        _ => Drawing::Nothing,
    }
}

/// What an instruction takes a line for.
fn taker_at(instr: &Instr) -> Taker
    ensures { result ≡ spec.taken_for instr.now }
{
    match instr {
        Instr::Screen(ScreenInstr::Input(kind)) => Taker::Value(*kind),
        Instr::Screen(ScreenInstr::Line) => Taker::Line,
        _ => Taker::Nothing,
    }
}

/// Whether a line is taken so.
fn does_take(takes: Taker) -> bool
    ensures { result ≡ spec.does_take takes }
{
    match takes {
        Taker::Nothing => false,
        Taker::Line | Taker::Value(_) => true,
    }
}

/// Whether something is drawn so.
fn does_draw(draws: Drawing) -> bool
    ensures { result ≡ spec.does_draw draws }
{
    match draws {
        Drawing::Nothing => false,
        Drawing::Value | Drawing::Blank => true,
    }
}

/// By instruction, whether the run is to be looked at before it.
fn marks_of(alloc: Global, instrs: &[Instr]) -> Result<Vec<bool>, AllocError>
    ensures { IfOk result (λ marks. marks.items ≡ map spec.is_looked_at instrs.now) }
{
    let mut marks = Vec::new(alloc);
    for instr in instrs {
        let (takes, draws) = (does_take(taker_at(instr)), does_draw(drawing_at(instr)));
        marks.push(takes || draws)?;
    }
    Ok(marks)
}

/// The field where a value is shown, counted from the first row that was ever sent out.
fn among_all(shown: ShownAt, sent: usize) -> ShownField {
    ShownField {
        row: sent.saturating_add(shown.row),
        column: shown.column,
        length: shown.length,
    }
}

/// A field that is counted so, on the screen; none where its row was sent out.
fn on_screen(field: ShownField, sent: usize) -> Option<ShownField>
    ensures { result ≡ spec.field_on_screen sent field }
{
    if field.row < sent {
        return None;
    }
    Some(ShownField {
        row: field.row - sent,
        column: field.column,
        length: field.length,
    })
}

impl Laid {
    fn copied(&self) -> Result<Laid, AllocError> {
        Ok(Laid {
            field: self.field,
            text: self.text.clone()?,
            under: self.under,
        })
    }
}

/// Lays an answer over the rows of the screen, behind so many rows that were sent out.
fn lay_answer(rows: &mut [[u8; 80]], sent: usize, answer: &Laid)
    ensures { spec.AnswerLies sent answer.now rows.old rows.new }
{
    if let Some(field) = on_screen(answer.field, sent) {
        lay_over(rows, field, answer.text.as_slice());
    }
}

/// Whether two fields have a place of the screen in common.
fn meets(one: ShownField, other: ShownField) -> bool {
    one.row == other.row
        && one.column < other.column.saturating_add(other.length)
        && other.column < one.column.saturating_add(one.length)
}

/// The cells of a field in its row.
fn cells_of(row: &[u8; 80], field: ShownField) -> &[u8] {
    let first = field.column.min(80);
    let end = field.column.saturating_add(field.length).min(80);
    &row[first..end.max(first)]
}

/// The row of the screen on which a field lies that is counted from the first row that was ever sent out.
fn row_under<'a>(seen: &Scene<'a>, field: ShownField, sent: usize) -> Option<&'a [u8; 80]> {
    seen.screen.rows().get(on_screen(field, sent)?.row)
}

/// Says of places that they belong to the fields of a READ, in their order.
fn join(members: &mut [Option<Member>], of_read: &[usize], read: usize) {
    for (field, place) in of_read.iter().enumerate() {
        if let Some(known) = members.get_mut(*place) {
            *known = Some(Member { read, field });
        }
    }
}

/// As many fields that aren't shown.
fn unshown(alloc: Global, count: usize) -> Result<Vec<Standing>, AllocError> {
    let mut fields = Vec::new(alloc);
    for _ in 0..count {
        fields.push(None)?;
    }
    Ok(fields)
}

impl Gets {
    /// Of a code that isn't known yet.
    pub fn new(alloc: Global) -> Gets
        ensures places { places_known result ≡ [] }
        ensures fields { result.fields.items ≡ [] }
        ensures waiting { result.waiting ≡ WaitingPlace.Behind }
        ensures number { result.number ≡ 0 }
        ensures kind { result.wanted.kind ≡ None }
    {
        Gets {
            places: Vec::new(alloc),
            members: Vec::new(alloc),
            shown: Vec::new(alloc),
            asking: None,
            asked: Vec::new(alloc),
            fields: Vec::new(alloc),
            answers: Vec::new(alloc),
            sent: RowCount { bytes: 0, rows: 0 },
            waiting: WaitingPlace::Behind,
            number: 0,
            wanted: Wanted {
                kind: None,
                holds: Holds::Unknown,
            },
        }
    }

    /// Learns the READs of a code. Answers the places at which the run is to be looked at: those of SAY, SAYON and
    /// CLEAR, and those that take a line.
    pub fn begin(&mut self, alloc: Global, code: &Code) -> Result<Vec<bool>, AllocError>
        ensures marks { IfOk result (λ marks. marks.items ≡ map spec.is_looked_at code.now.instructions) }
        ensures places { OnOk result (places_known self.new
            ≡ places_known self.old ++ map spec.place_known code.now.instructions) }
    {
        self.learn_places(code.instructions.as_slice())?;
        let reads = reads_of(alloc, code)?;
        self.learn(alloc, reads.as_slice())?;
        marks_of(alloc, code.instructions.as_slice())
    }

    /// Learns what the instructions of a code take and draw.
    fn learn_places(&mut self, instrs: &[Instr]) -> Result<(), AllocError>
        ensures { OnOk result (places_known self.new ≡ places_known self.old ++ map spec.place_known instrs.now) }
    {
        for instr in instrs {
            self.places.push(Place {
                takes: taker_at(instr),
                draws: drawing_at(instr),
            })?;
            self.members.push(None)?;
        }
        Ok(())
    }

    /// Learns the READs of a code.
    fn learn(&mut self, alloc: Global, reads: &[Read]) -> Result<(), AllocError>
        ensures { places_known self.new ≡ places_known self.old }
    {
        for (number, read) in reads.iter().enumerate() {
            join(&mut self.members, read.takes.as_slice(), number);
            join(&mut self.members, read.shows.as_slice(), number);
            self.shown.push(unshown(alloc, read.shows.len())?)?;
        }
        Ok(())
    }

    /// Whether a line is taken at a place.
    pub fn takes_line(&self, place: usize) -> bool
        ensures { result ≡ spec.takes_line_at self.now place }
    {
        match self.places.get(place) {
            Some(known) => does_take(known.takes),
            None => false,
        }
    }

    /// The READ and the field of a place.
    fn member(&self, place: usize) -> Option<Member> {
        *self.members.get(place)?
    }

    /// Learns where the value is shown that the next instruction shows, where a READ asks for it. Answers that lie
    /// where the program draws now are taken away.
    pub fn look(&mut self, alloc: Global, seen: &Scene<'_>) -> Result<(), AllocError>
        ensures { AsksTheSame self.old self.new }
    {
        self.sent.count(seen.screen.sent());
        match self.drawing(seen.place) {
            Drawing::Nothing => return Ok(()),
            Drawing::Blank => {
                self.answers = Vec::new(alloc);
                return Ok(());
            }
            Drawing::Value => {}
        }
        let standing = match seen.shown {
            Some(shown) => Some(among_all(shown, self.sent.rows)),
            None => None,
        };
        self.note_at(seen.place, standing);
        match standing {
            Some(written) => self.leave_out(alloc, written),
            None => Ok(()),
        }
    }

    /// What is drawn at a place of the code.
    fn drawing(&self, place: usize) -> Drawing {
        match self.places.get(place) {
            Some(known) => known.draws,
            None => Drawing::Nothing,
        }
    }

    /// Notes where the value stands that is shown at a place, where a READ asks for it.
    fn note_at(&mut self, place: usize, standing: Standing)
        ensures { AsksTheSame self.old self.new }
    {
        if let Some(member) = self.member(place) {
            self.note(member, standing);
        }
    }

    /// Notes where a field of a READ stands.
    fn note(&mut self, member: Member, standing: Standing)
        ensures { AsksTheSame self.old self.new }
    {
        if let Some(fields) = self.shown.get_mut(member.read) {
            if let Some(known) = fields.get_mut(member.field) {
                *known = standing;
            }
        }
    }

    /// Takes away the answers that lie over a field which the program writes now.
    fn leave_out(&mut self, alloc: Global, written: ShownField) -> Result<(), AllocError>
        ensures { AsksTheSame self.old self.new }
    {
        let mut kept = Vec::new(alloc);
        for answer in &self.answers {
            if !meets(written, answer.field) {
                kept.push(answer.copied()?)?;
            }
        }
        self.answers = kept;
        Ok(())
    }

    /// The fields of the READ that waits as they stand on the screen now.
    fn fields_now(&self, alloc: Global) -> Result<Vec<ShownField>, AllocError> {
        let mut fields = Vec::new(alloc);
        for standing in &self.asked {
            if let Some(field) = *standing {
                if let Some(field) = on_screen(field, self.sent.rows) {
                    fields.push(field)?;
                }
            }
        }
        Ok(fields)
    }

    /// Learns that a READ begins to take lines: where its fields were shown is known, and what is shown from now on is
    /// for the next time.
    fn begin_read(&mut self, alloc: Global, read: usize) -> Result<(), AllocError> {
        self.asking = Some(read);
        self.asked = Vec::new(alloc);
        if let Some(fields) = self.shown.get_mut(read) {
            for known in fields.iter_mut() {
                self.asked.push(*known)?;
                *known = None;
            }
        }
        Ok(())
    }

    /// Where a field of the READ that waits is typed.
    fn place_of(&self, field: usize) -> WaitingPlace {
        match self.asked.get(field) {
            Some(Some(field)) => match on_screen(*field, self.sent.rows) {
                Some(field) => WaitingPlace::Field(field),
                None => WaitingPlace::Unknown,
            },
            _ => WaitingPlace::Unknown,
        }
    }

    /// Learns that a field of a READ is asked for.
    fn wait_for(&mut self, alloc: Global, member: Member) -> Result<(), AllocError> {
        if member.field == 0 || self.asking != Some(member.read) {
            self.begin_read(alloc, member.read)?;
        }
        self.number = member.field.saturating_add(1);
        self.fields = self.fields_now(alloc)?;
        self.waiting = self.place_of(member.field);
        Ok(())
    }

    /// For which kind of value a line is taken at a place; none where it is taken as such, or none is.
    fn kind_at(&self, place: usize) -> Option<Kind>
        ensures { result ≡ spec.kind_wanted_at self.now place }
    {
        match self.places.get(place) {
            Some(known) => match known.takes {
                Taker::Value(kind) => Some(kind),
                Taker::Nothing | Taker::Line => None,
            },
            None => None,
        }
    }

    /// Learns which line is wanted, what it is for, and where it is typed.
    pub fn wait(&mut self, alloc: Global, seen: &Scene<'_>) -> Result<(), AllocError>
        ensures kind { OnOk result (self.new.wanted.kind ≡ spec.kind_wanted_at self.old seen.now.place) }
        ensures field { OnOk result (IfSome seen.now.field (λ size. self.new.wanted.holds
            ≡ spec.held_by_field (spec.kind_wanted_at self.old seen.now.place) size)) }
    {
        let kind = self.kind_at(seen.place);
        self.wait_at(alloc, seen)?;
        self.wanted = Wanted {
            kind,
            holds: self.holds(kind, seen),
        };
        Ok(())
    }

    /// How much of an answer the value takes for which a line of this kind is wanted: what the field takes in which it
    /// is stored, or, of a text, as many bytes as the GET showed.
    fn holds(&self, kind: Option<Kind>, seen: &Scene<'_>) -> Holds
        ensures { IfSome seen.now.field (λ size. result ≡ spec.held_by_field kind size) }
    {
        match (kind, seen.field) {
            (Some(Kind::Number), Some(size)) => Holds::Number(size),
            (Some(Kind::Text), Some(size)) => Holds::Text(usize::from(size.width)),
            (Some(Kind::Text), None) => self.holds_shown(seen.place),
            _ => Holds::Unknown,
        }
    }

    /// How many bytes the text has that a GET showed for a place; that isn't known where its row may have been too
    /// short for it.
    fn holds_shown(&self, place: usize) -> Holds {
        match self.member(place) {
            Some(member) => match self.asked.get(member.field) {
                Some(Some(field)) if field.column.saturating_add(field.length) < COLUMNS => {
                    Holds::Text(field.length)
                }
                _ => Holds::Unknown,
            },
            None => Holds::Unknown,
        }
    }

    /// Learns where the line that is wanted is typed.
    fn wait_at(&mut self, alloc: Global, seen: &Scene<'_>) -> Result<(), AllocError> {
        self.sent.count(seen.screen.sent());
        self.keep_those_under(alloc, seen)?;
        match self.member(seen.place) {
            Some(member) => self.wait_for(alloc, member),
            None => {
                self.waiting = WaitingPlace::Behind;
                self.fields = Vec::new(alloc);
                Ok(())
            }
        }
    }

    /// Takes away the answers in whose fields the program wrote since.
    fn keep_those_under(&mut self, alloc: Global, seen: &Scene<'_>) -> Result<(), AllocError> {
        let sent = self.sent.rows;
        let mut kept = Vec::new(alloc);
        for answer in &self.answers {
            let same = match row_under(seen, answer.field, sent) {
                Some(row) => {
                    cells_of(row, answer.field) == cells_of(&answer.under, answer.field)
                }
                None => false,
            };
            if same {
                kept.push(answer.copied()?)?;
            }
        }
        self.answers = kept;
        Ok(())
    }

    /// Lays the answers over the rows of the screen.
    pub fn lay_answers(&self, rows: &mut [[u8; 80]])
        ensures { spec.AnswersLie (spec.rows_gone self.now) (spec.answers_laid self.now) rows.old rows.new }
    {
        for answer in &self.answers {
            lay_answer(&mut *rows, self.sent.rows, answer);
        }
    }

    /// Lays an answer over its field. An empty one, or one that isn't taken, keeps the old value.
    pub fn take(&mut self, alloc: Global, line: &[u8], seen: &Scene<'_>) -> Result<(), AllocError>
        ensures { AsksTheSame self.old self.new }
    {
        let WaitingPlace::Field(field) = self.waiting else {
            return Ok(());
        };
        let Some(row) = seen.screen.rows().get(field.row) else {
            return Ok(());
        };
        if line.is_empty() || bad_answer(self.wanted.kind, line).is_some() {
            return Ok(());
        }
        self.answers.push(Laid {
            field: ShownField {
                row: self.sent.rows.saturating_add(field.row),
                column: field.column,
                length: field.length,
            },
            text: Vec::from_slice(alloc, line)?,
            under: *row,
        })?;
        Ok(())
    }
}
