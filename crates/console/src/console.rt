//! The state between lines: the controller that the text drafts, and the counts of lines.
ghost use Rattle.std.specs.Prelude.{◌≡◌, Some};
ghost use Rattle.console.specs.Drafting.{reaches, board_reaches, draft_in, draft_of, while_drafting, outcome_of};
ghost use Rattle.console.specs.Answering.{Answered, state_of, fresh_state};
ghost use Rattle.console.specs.Reports.{report_of};

use super::answers::{Answer, Reply};
use super::report::Report;
use super::tally::Tally;
use bracket::{BoardText, Command, Side, read};
use controller::Controller;
use refusals::Refusal;

/// What is kept between lines.
#[derive(Drop)]
pub struct Console {
    // none before a board form is accepted
    controller: Option<Controller<BoardText>>,
    tally: Tally,
}

fn side_reaches(side: Side) -> bool
    ensures { result ≡ reaches side }
{
    (1..=8).contains(&side.reach)
}

fn board_reaches(board: BoardText) -> bool
    ensures { result ≡ board_reaches board }
{
    match board {
        BoardText::Single(side) => side_reaches(side),
        BoardText::Join(first, second) => side_reaches(first) && side_reaches(second),
    }
}

// What a controller that drafts makes of a command.
fn draft(controller: &mut Controller<BoardText>, command: Command) -> Result<Reply, Refusal>
    ensures reply { result ≡ (while_drafting (draft_in controller.old) command).reply }
    ensures after { Some (draft_in controller.new) ≡ (while_drafting (draft_in controller.old) command).draft }
{
    match command {
        Command::Component {
            level,
            budget,
            period,
        } => controller
            .component(level, budget, period)
            .map(Reply::Number),
        Command::Task {
            component,
            deadline,
        } => controller.task(component, deadline).map(Reply::Number),
        Command::Use {
            component,
            resource,
            access,
        } => controller
            .declare_use(component, resource, access)
            .map(|()| Reply::Done),
        _ => Err(Refusal::WrongPhase),
    }
}

impl Console {
    /// Before the first line.
    pub fn new() -> Console
        ensures { state_of result ≡ fresh_state }
    {
        Console {
            controller: None,
            tally: Tally::new(),
        }
    }

    // A board form makes the controller; the other forms need one.
    fn carry_out(&mut self, command: Command) -> Result<Reply, Refusal>
        ensures reply { result ≡ (outcome_of (draft_of self.old.controller) command).reply }
        ensures after { draft_of self.new.controller ≡ (outcome_of (draft_of self.old.controller) command).draft }
        ensures tally { self.new.tally ≡ self.old.tally }
    {
        if let Some(controller) = &mut self.controller {
            return draft(controller, command);
        }
        let Command::Board(board) = command else {
            return Err(Refusal::WrongPhase);
        };
        if !board_reaches(board) {
            return Err(Refusal::ReachRange);
        }
        self.controller = Some(Controller::new(board));
        Ok(Reply::Done)
    }

    /// Answers one line, given without the byte that ends it.
    pub fn answer(&mut self, line: &[u8]) -> Answer
        ensures { Answered (state_of self.old) line.now result (state_of self.new) }
    {
        let answer = match read(line) {
            Ok(command) => self.carry_out(command).into(),
            Err(fault) => Answer::Unreadable {
                line: self.tally.next_line(),
                fault,
            },
        };
        self.tally.count(answer);
        answer
    }

    /// What was done up to here.
    pub fn report(&self) -> Report
        ensures { result ≡ report_of (state_of self.now) }
    {
        let counts = self.controller.as_ref().map(Controller::counts);
        Report {
            tally: self.tally,
            counts: counts.unwrap_or_default(),
        }
    }
}
