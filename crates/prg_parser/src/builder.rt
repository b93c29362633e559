//! Commands and blocks put together, line by line. The lines were judged before, so each fits the block that is open
//! where it stands. A line that didn't fit would be passed over.

ghost use Rattle.std.specs.Prelude.{◌≡◌, ◌++◌, ◌∷◌, [], ℕ, true, None, Some, IfOk, map, option_map};
ghost use Rattle.prg_expr.specs.Tree.{tree_of};
ghost use Rattle.prg_parser.specs.Blocks.{divide_at, fault_of_place, innermost, begins_procedure, may_stand, outer};
ghost use Rattle.prg_parser.specs.Blocks.{takes_cases};
ghost use Rattle.prg_parser.specs.Building.{IsChoice, Took, awaited, built_lines, built_parts, current_lines};
ghost use Rattle.prg_parser.specs.Building.{block_ending};
ghost use Rattle.prg_parser.specs.Building.{finished_lines, head_lines, is_ending, opens_lines, part_of_block};
ghost use Rattle.prg_parser.specs.Building.{place_of_open};
ghost use Rattle.prg_parser.specs.Layout.{lines_of_saying};
ghost use Rattle.prg_parser.specs.Layout.{body_lines, cases_lines, command_lines, case_lines, form_lines, part_lines};
ghost use Rattle.prg_parser.specs.Layout.{program_lines};
ghost use Rattle.prg_line.specs.Saying.{Saying, line as said_line, role_of, saying_of};
ghost use Rattle.prg_line.specs.Saying as saying;
ghost use Rattle.prg_parser.specs.declared.blocks.Place.{Place as Within};
ghost use Rattle.prg_parser.specs.declared.blocks.Place.TheVariants as within;

use crate::command::{Branch, Case, Command, Form};
use crate::program::{Procedure, Program};
use prg_expr::{Expr, Name, Text};
use prg_line::Sentence;
use std::alloc::{AllocError, Global};

/// What of an open block is known before its innermost part ends.
#[derive(Drop)]
enum Open {
    /// Behind `IF`.
    Then {
        condition: Expr,
    },
    /// Behind `ELSE`, which stands in this line.
    Else {
        condition: Expr,
        then: Vec<Command>,
        line: usize,
    },
    /// Behind a `CASE`, which stands in this line.
    Case {
        cases: Vec<Case>,
        line: usize,
        condition: Expr,
    },
    /// Behind `OTHERWISE`, which stands in this line.
    Otherwise {
        cases: Vec<Case>,
        line: usize,
    },
    /// Behind `DO WHILE`.
    While {
        condition: Expr,
    },
    /// Behind `SCAN`.
    Scan {
        condition: Option<Expr>,
    },
}

/// An open block in whose innermost part commands stand: its line, what is known of it, and the commands before it.
#[derive(Drop)]
struct OpenBlock {
    line: usize,
    head: Open,
    before: Vec<Command>,
}

/// What stands directly before the next line.
#[derive(Drop)]
enum Current {
    /// The commands of the innermost part.
    Commands(Vec<Command>),
    /// The `DO CASE` in this line, whose first `CASE` is awaited; before it these commands.
    DoCase { line: usize, before: Vec<Command> },
}

/// What was read before the main part or the procedure that is being read.
#[derive(Drop)]
enum Finished {
    /// Nothing: the main part is being read.
    Nothing,
    /// The main part and these procedures: the procedure of this name is being read, which begins in this line.
    Main {
        main: Vec<Command>,
        procedures: Vec<Procedure>,
        line: usize,
        name: Name,
    },
}

/// A program that is being read.
#[derive(Drop)]
pub struct Builder {
    alloc: Global,
    finished: Finished,
    blocks: Vec<OpenBlock>,
    current: Current,
}

impl Builder {
    /// A program of no line yet.
    pub fn new(alloc: Global) -> Builder
        ensures lines { built_lines result ≡ [] }
        ensures parts { built_parts result ≡ [] }
    {
        Builder {
            alloc,
            finished: Finished::Nothing,
            blocks: Vec::new(alloc),
            current: Current::Commands(Vec::new(alloc)),
        }
    }

    /// Takes what the next line says.
    pub fn take(self, line: usize, sentence: Sentence) -> Result<Builder, AllocError>
        ensures { fault_of_place (built_parts self) (role_of (saying_of sentence)) ≡ None
            → (begins_procedure (role_of (saying_of sentence)) ≡ true → built_parts self ≡ [])
            → IfOk result (Took self line (saying_of sentence)) }
    {
        match sentence {
            Sentence::Nothing => Ok(self),
            Sentence::Whole(statement) => self.put(line, Form::Statement(statement)),
            Sentence::If(condition) => self.open(line, Open::Then { condition }),
            Sentence::DoCase => Ok(self.await_case(line)),
            Sentence::DoWhile(condition) => self.open(line, Open::While { condition }),
            Sentence::Scan(condition) => self.open(line, Open::Scan { condition }),
            Sentence::Else => self.divide_if(line),
            Sentence::Case(condition) => self.next_case(line, condition),
            Sentence::Otherwise => self.otherwise(line),
            Sentence::EndIf | Sentence::EndCase | Sentence::EndDo | Sentence::EndScan => {
                self.end(line)
            }
            Sentence::Procedure(name) => self.start_procedure(line, name),
        }
    }

    /// Puts a command behind those of the innermost part.
    fn put(self, line: usize, form: Form) -> Result<Builder, AllocError>
        ensures { awaited self.current ≡ []
            → IfOk result (λ b. (built_lines b ≡ built_lines self ++ form_lines form line)
            × (built_parts b ≡ built_parts self)) }
    {
        let Builder {
            alloc,
            finished,
            blocks,
            current,
        } = self;
        let commands = put(commands_of(current), line, form)?;
        Ok(Builder {
            alloc,
            finished,
            blocks,
            current: Current::Commands(commands),
        })
    }

    /// Opens a block.
    fn open(self, line: usize, head: Open) -> Result<Builder, AllocError>
        ensures { awaited self.current ≡ []
            → IfOk result (λ b. (built_lines b ≡ built_lines self ++ head_lines line head)
            × (built_parts b ≡ built_parts self ++ (record { place = place_of_open head; line = line }) ∷ [])) }
    {
        let Builder {
            alloc,
            finished,
            blocks,
            current,
        } = self;
        let blocks = pushed(blocks, line, head, commands_of(current))?;
        Ok(Builder {
            alloc,
            finished,
            blocks,
            current: Current::Commands(Vec::new(alloc)),
        })
    }

    /// Goes on behind `DO CASE`.
    fn await_case(self, line: usize) -> Builder
        ensures { awaited self.current ≡ [] → Took self line saying.DoCase result }
    {
        let Builder {
            alloc,
            finished,
            blocks,
            current,
        } = self;
        Builder {
            alloc,
            finished,
            blocks,
            current: Current::DoCase {
                line,
                before: commands_of(current),
            },
        }
    }

    /// Goes on behind `ELSE`.
    fn divide_if(self, line: usize) -> Result<Builder, AllocError>
        ensures { fault_of_place (built_parts self) (role_of saying.Else) ≡ None
            → IfOk result (Took self line saying.Else) }
    {
        let Builder {
            alloc,
            finished,
            mut blocks,
            current,
        } = self;
        let Some(block) = blocks.pop() else {
            return Ok(Builder {
                alloc,
                finished,
                blocks,
                current,
            });
        };
        let OpenBlock {
            line: opening,
            head,
            before,
        } = block;
        let head = else_of(head, commands_of(current), line);
        let blocks = pushed(blocks, opening, head, before)?;
        Ok(Builder {
            alloc,
            finished,
            blocks,
            current: Current::Commands(Vec::new(alloc)),
        })
    }

    /// Goes on behind a `CASE` with this condition.
    fn next_case(self, line: usize, condition: Expr) -> Result<Builder, AllocError>
        ensures { fault_of_place (built_parts self) (role_of (saying.Case (tree_of condition))) ≡ None
            → IfOk result (Took self line (saying.Case (tree_of condition))) }
    {
        let Builder {
            alloc,
            finished,
            blocks,
            current,
        } = self;
        let Choice {
            blocks,
            line: opening,
            cases,
            before,
        } = open_choice(alloc, blocks, current)?;
        let head = Open::Case {
            cases,
            line,
            condition,
        };
        let blocks = pushed(blocks, opening, head, before)?;
        Ok(Builder {
            alloc,
            finished,
            blocks,
            current: Current::Commands(Vec::new(alloc)),
        })
    }

    /// Goes on behind `OTHERWISE`.
    fn otherwise(self, line: usize) -> Result<Builder, AllocError>
        ensures { fault_of_place (built_parts self) (role_of saying.Otherwise) ≡ None
            → IfOk result (Took self line saying.Otherwise) }
    {
        let Builder {
            alloc,
            finished,
            blocks,
            current,
        } = self;
        let Choice {
            blocks,
            line: opening,
            cases,
            before,
        } = open_choice(alloc, blocks, current)?;
        let head = Open::Otherwise { cases, line };
        let blocks = pushed(blocks, opening, head, before)?;
        Ok(Builder {
            alloc,
            finished,
            blocks,
            current: Current::Commands(Vec::new(alloc)),
        })
    }

    /// Ends the innermost block in this line.
    fn end(self, line: usize) -> Result<Builder, AllocError>
        ensures { (s : Saying) → is_ending s ≡ true → fault_of_place (built_parts self) (role_of s) ≡ None
            → IfOk result (Took self line s) }
    {
        let Builder {
            alloc,
            finished,
            mut blocks,
            current,
        } = self;
        match current {
            Current::Commands(body) => {
                let commands = end_last(&mut blocks, body, line)?;
                Ok(Builder {
                    alloc,
                    finished,
                    blocks,
                    current: Current::Commands(commands),
                })
            }
            Current::DoCase {
                line: opening,
                before,
            } => {
                let form = case_of(Vec::new(alloc), None, line);
                let commands = put(before, opening, form)?;
                Ok(Builder {
                    alloc,
                    finished,
                    blocks,
                    current: Current::Commands(commands),
                })
            }
        }
    }

    /// Ends the main part or the procedure before, and begins a procedure.
    fn start_procedure(self, line: usize, name: Name) -> Result<Builder, AllocError>
        ensures { built_parts self ≡ [] → IfOk result (Took self line (saying.Procedure name.items)) }
    {
        let alloc = self.alloc;
        let program = self.finish()?;
        Ok(Builder {
            alloc,
            finished: Finished::Main {
                main: program.main,
                procedures: program.procedures,
                line,
                name,
            },
            blocks: Vec::new(alloc),
            current: Current::Commands(Vec::new(alloc)),
        })
    }

    /// The program behind the last line. Blocks that are open are given up.
    pub fn finish(self) -> Result<Program, AllocError>
        ensures lines { built_parts self ≡ [] → IfOk result (λ p. program_lines p ≡ built_lines self) }
        ensures unnamed { IfOk result (λ p. p.name.items ≡ []) }
    {
        let Builder {
            alloc,
            finished,
            blocks: _,
            current,
        } = self;
        ended(alloc, finished, last_commands(current))
    }
}

/// The commands before the next line, where no `CASE` is awaited.
fn commands_of(current: Current) -> Vec<Command>
    ensures { awaited current ≡ [] → current_lines current ≡ body_lines result.items }
{
    match current {
        Current::Commands(commands) => commands,
        Current::DoCase { before, .. } => before,
    }
}

/// The commands behind which nothing comes, where no `CASE` is awaited.
fn last_commands(current: Current) -> Vec<Command>
    ensures { awaited current ≡ [] → current_lines current ≡ body_lines result.items }
{
    trimmed(commands_of(current))
}

/// Ends the innermost block, whose last part is these commands: the commands up to it.
fn end_last(
    blocks: &mut Vec<OpenBlock>,
    body: Vec<Command>,
    end: usize,
) -> Result<Vec<Command>, AllocError>
    ensures { (s : Saying) → is_ending s ≡ true
        → may_stand (role_of s) (option_map (λ part. part.place) (innermost (map part_of_block blocks.old.items)))
        ≡ true
        → IfOk result (λ cs. (opens_lines blocks.new.items ++ body_lines cs.items
        ≡ (opens_lines blocks.old.items ++ body_lines body.items) ++ lines_of_saying end s)
        × (map part_of_block blocks.new.items ≡ outer (map part_of_block blocks.old.items))) }
{
    let Some(block) = blocks.pop() else {
        return Ok(body);
    };
    let OpenBlock { line, head, before } = block;
    put(before, line, form_of(head, body, end)?)
}

/// The program up to the end of the part that is being read, with the commands of that part.
fn ended(alloc: Global, finished: Finished, body: Vec<Command>) -> Result<Program, AllocError>
    ensures lines { IfOk result (λ p. program_lines p ≡ finished_lines finished ++ body_lines body.items) }
    ensures unnamed { IfOk result (λ p. p.name.items ≡ []) }
{
    match finished {
        Finished::Nothing => Ok(Program {
            name: Text::new(),
            main: body,
            procedures: Vec::new(alloc),
        }),
        Finished::Main {
            main,
            mut procedures,
            line,
            name,
        } => {
            procedures.push(Procedure { line, name, body })?;
            Ok(Program {
                name: Text::new(),
                main,
                procedures,
            })
        }
    }
}

/// The commands, without room for further ones.
fn trimmed(mut commands: Vec<Command>) -> Vec<Command>
    ensures { result.items ≡ commands.items }
{
    commands.shrink_to_fit();
    commands
}

/// A command of this form.
#[tactic(auto, using(crate::proofs::LayoutLemmas::layouts))]
fn command_of(line: usize, form: Form) -> Command
    ensures { command_lines result ≡ form_lines form line }
{
    Command { line, form }
}

/// The commands, and one of this form behind them.
fn put(mut commands: Vec<Command>, line: usize, form: Form) -> Result<Vec<Command>, AllocError>
    ensures { IfOk result (λ cs. body_lines cs.items ≡ body_lines commands.items ++ form_lines form line) }
{
    commands.push(command_of(line, form))?;
    Ok(commands)
}

/// The open blocks, and one more within them.
fn pushed(
    mut blocks: Vec<OpenBlock>,
    line: usize,
    head: Open,
    before: Vec<Command>,
) -> Result<Vec<OpenBlock>, AllocError>
    ensures { IfOk result (λ bs. bs.items ≡ blocks.items ++ (record { line = line; head = head; before = before })
        ∷ []) }
{
    blocks.push(OpenBlock { line, head, before })?;
    Ok(blocks)
}

/// A case of these parts.
#[tactic(auto, using(crate::proofs::LayoutLemmas::layouts))]
fn one_case(line: usize, condition: Expr, body: Vec<Command>) -> Case
    ensures { case_lines result ≡ said_line line (saying.Case (tree_of condition)) ∷ body_lines body.items }
{
    Case {
        line,
        condition,
        body: trimmed(body),
    }
}

/// The cases, and one more behind them.
fn put_case(
    mut cases: Vec<Case>,
    line: usize,
    condition: Expr,
    body: Vec<Command>,
) -> Result<Vec<Case>, AllocError>
    ensures { IfOk result (λ cs. cases_lines cs.items ≡ cases_lines cases.items
        ++ said_line line (saying.Case (tree_of condition)) ∷ body_lines body.items) }
{
    cases.push(one_case(line, condition, body))?;
    Ok(cases)
}

/// An `IF` behind its `ELSE`.
fn else_of(head: Open, then: Vec<Command>, line: usize) -> Open
    ensures lines { place_of_open head ≡ within.InThen → (n : ℕ)
        → head_lines n result ≡ head_lines n head ++ (body_lines then.items ++ said_line line saying.Else ∷ []) }
    ensures place { place_of_open head ≡ within.InThen → place_of_open result ≡ within.InElse }
{
    match head {
        Open::Then { condition } => Open::Else {
            condition,
            then,
            line,
        },
        head => head,
    }
}

/// A `DO CASE` whose next case begins, and the blocks around it.
#[derive(Drop)]
struct Choice {
    blocks: Vec<OpenBlock>,
    line: usize,
    cases: Vec<Case>,
    before: Vec<Command>,
}

/// The innermost `DO CASE` with its last case ended, if it has one.
fn open_choice(
    alloc: Global,
    blocks: Vec<OpenBlock>,
    current: Current,
) -> Result<Choice, AllocError>
    ensures { takes_cases (option_map (λ part. part.place)
        (innermost (map part_of_block blocks.items ++ awaited current))) ≡ true
        → IfOk result (IsChoice blocks current) }
{
    match current {
        Current::Commands(body) => ended_case(alloc, blocks, body),
        Current::DoCase { line, before } => Ok(Choice {
            blocks,
            line,
            cases: Vec::new(alloc),
            before,
        }),
    }
}

/// The innermost `DO CASE`, whose last case has these commands.
fn ended_case(
    alloc: Global,
    mut blocks: Vec<OpenBlock>,
    body: Vec<Command>,
) -> Result<Choice, AllocError>
    ensures { takes_cases (option_map (λ part. part.place) (innermost (map part_of_block blocks.items))) ≡ true
        → IfOk result (λ c. (opens_lines blocks.items ++ body_lines body.items ≡ opens_lines c.blocks.items
        ++ (body_lines c.before.items ++ said_line c.line saying.DoCase ∷ cases_lines c.cases.items))
        × ((next : Within) → divide_at (map part_of_block blocks.items)
        (innermost (map part_of_block blocks.items)) next ≡ map part_of_block c.blocks.items
        ++ (record { place = next; line = c.line }) ∷ [])) }
{
    let Some(block) = blocks.pop() else {
        return Ok(Choice {
            blocks,
            line: 0,
            cases: Vec::new(alloc),
            before: body,
        });
    };
    let OpenBlock { line, head, before } = block;
    Ok(Choice {
        blocks,
        line,
        cases: cases_of(alloc, head, body)?,
        before,
    })
}

/// The cases up to the end of this one.
fn cases_of(alloc: Global, head: Open, body: Vec<Command>) -> Result<Vec<Case>, AllocError>
    ensures { place_of_open head ≡ within.InCase
        → IfOk result (λ cs. (n : ℕ)
        → head_lines n head ++ body_lines body.items ≡ said_line n saying.DoCase ∷ cases_lines cs.items) }
{
    match head {
        Open::Case {
            cases,
            line,
            condition,
        } => put_case(cases, line, condition, body),
        _ => Ok(Vec::new(alloc)),
    }
}

/// A `DO CASE` of these parts.
#[tactic(auto, using(crate::proofs::LayoutLemmas::layouts))]
fn case_of(cases: Vec<Case>, otherwise: Option<Branch>, end: usize) -> Form
    ensures { (n : ℕ) → form_lines result n ≡ said_line n saying.DoCase
        ∷ (cases_lines cases.items ++ (part_lines saying.Otherwise otherwise ++ said_line end saying.EndCase ∷ [])) }
{
    Form::DoCase {
        cases,
        otherwise,
        end,
    }
}

/// An `IF` of these parts.
#[tactic(auto, using(crate::proofs::LayoutLemmas::layouts))]
fn if_of(condition: Expr, then: Vec<Command>, otherwise: Option<Branch>, end: usize) -> Form
    ensures { (n : ℕ) → form_lines result n ≡ said_line n (saying.If (tree_of condition))
        ∷ (body_lines then.items ++ (part_lines saying.Else otherwise ++ said_line end saying.EndIf ∷ [])) }
{
    Form::If {
        condition,
        then: trimmed(then),
        otherwise,
        end,
    }
}

/// A branch of these parts.
#[tactic(auto, using(crate::proofs::LayoutLemmas::layouts))]
fn branch_of(line: usize, body: Vec<Command>) -> Branch
    ensures { (s : Saying) → part_lines s (Some result) ≡ said_line line s ∷ body_lines body.items }
{
    Branch {
        line,
        body: trimmed(body),
    }
}

/// The command that a block is, of which this is the last part.
fn form_of(head: Open, body: Vec<Command>, end: usize) -> Result<Form, AllocError>
    ensures { IfOk result (λ form. (n : ℕ)
        → form_lines form n ≡ head_lines n head ++ (body_lines body.items ++ said_line end (block_ending head) ∷ [])) }
{
    Ok(match head {
        Open::Then { condition } => if_of(condition, body, None, end),
        Open::Else {
            condition,
            then,
            line,
        } => if_of(condition, then, Some(branch_of(line, body)), end),
        Open::Case {
            cases,
            line,
            condition,
        } => case_of(put_case(cases, line, condition, body)?, None, end),
        Open::Otherwise { cases, line } => case_of(cases, Some(branch_of(line, body)), end),
        Open::While { condition } => while_of(condition, body, end),
        Open::Scan { condition } => scan_of(condition, body, end),
    })
}

/// A `DO WHILE` of these parts.
#[tactic(auto, using(crate::proofs::LayoutLemmas::layouts))]
fn while_of(condition: Expr, body: Vec<Command>, end: usize) -> Form
    ensures { (n : ℕ) → form_lines result n ≡ said_line n (saying.DoWhile (tree_of condition))
        ∷ (body_lines body.items ++ said_line end saying.EndDo ∷ []) }
{
    Form::DoWhile {
        condition,
        body: trimmed(body),
        end,
    }
}

/// A `SCAN` of these parts.
#[tactic(auto, using(crate::proofs::LayoutLemmas::layouts))]
fn scan_of(condition: Option<Expr>, body: Vec<Command>, end: usize) -> Form
    ensures { (n : ℕ) → form_lines result n ≡ said_line n (saying.Scan (option_map tree_of condition))
        ∷ (body_lines body.items ++ said_line end saying.EndScan ∷ []) }
{
    Form::Scan {
        condition,
        body: trimmed(body),
        end,
    }
}
