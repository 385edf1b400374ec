//! A session whose lines come one by one, each answered at once.

ghost use Rattle.std.specs.Prelude.{◌≡◌, ◌≢◌, ◌<◌, ◌≤◌, ◌+◌, ◌++◌, [], ℕ, List, None, Some, Ok, Err, true, false, length, map, IfSome, IfOk, OnOk, OnErr, IsOkUnless};
ghost use Rattle.gl_client.specs.Program.{Program, done};
ghost use Rattle.gl_base.specs.Rows.{Each};
ghost use Rattle.gl_asking.specs.Rows.{IsRow, row_file};
ghost use Rattle.gl_script.specs.Columns.{columns};
ghost use Rattle.gl_script.specs.Served.{IsSaid, Statement, kind_in, kinds};
ghost use Rattle.gl_talk.specs.Open.{Names};
ghost use Rattle.gl_talk.specs.Talk.{left, names_in};
ghost use Rattle.gl_check.specs.One.{PlannedPort, Standing};
ghost use Rattle.gl_served.specs.Alone.{StandsAs};
ghost use Rattle.gl_served.specs.Closing.{IsEnded, all_closed, front_closed};
ghost use Rattle.gl_debounce.specs.Earliest.{earliest};
ghost use Rattle.gl_served.specs.Questions.{IsData, IsReply, data_kind, due_text, question_of, stands_for};
ghost use Rattle.gl_served.specs.Served.{Accepted, IsAnswer, Keeps, carried_out, counted, kind_after, limited, nothing_accepted};
ghost use Rattle.gl_served.specs.Slots.{pair_behind};
ghost use Rattle.gl_served.specs.declared.limits.TheConstants.{LINE_MAX, PAIRS};
ghost use Rattle.gl_served.specs.UnderWay.{IsStatementLine, CanAnswer, HasBegun, HasGone, IsAsBefore, IsGoing, IsLeft, IsOther, IsSameSession, IsTaken, IsUnderWay, left_by, statement_for, text_shown, told_by};
ghost use Rattle.gl_served.specs.declared.question.Question.TheVariants.{Data, Nothing};

use crate::alone::Alone;
use crate::answered::Answer;
use crate::limits::{LINE_MAX, PAIRS};
use crate::question::{
    Question, behind_data, due_line, moved, question_of, read_statement, shift_of,
};
use crate::slots::pair_behind;
use crate::under_way::{Step, UnderWay};
use gl_base::{Do, Errno, Got};
use gl_script::{LineKind, RefusalKind, Spot, Stage, line_kind, text_at};
use gl_talk::Talk;
use std::alloc::Global;
use std::marker::Model;
use std::mem;

/// The column of the first byte that is too many.
const TOO_LONG: u32 = LINE_MAX as u32 + 1;

/// A session, as far as it has come: its machine, and its talk. It keeps no line and no history, so it grows with what is open alone.
#[derive(Drop)]
pub struct Served {
    stage: Stage,
    talk: Talk,
    /// How many statements were accepted; it stands still once no pair of slots is a statement's own.
    count: u32,
    alone: Alone,
    /// The line that was begun, where memory was wanted before its end.
    under_way: Option<UnderWay>,
}

impl Model for Served {
    ghost use Rattle.std.specs.Prelude.{◌≤◌};
    ghost use Rattle.gl_asking.specs.Rows.{IsRow};
    ghost use Rattle.gl_base.specs.Rows.{Each};
    ghost use Rattle.gl_served.specs.Served.{ServedValue};

    ghost Value = { ServedValue };

    ghost view = { λ s. record { stage = s.stage; talk = s.talk; count = s.count; alone = s.alone; under_way = s.under_way } };

    ghost invariant = { λ s. Each IsRow s.alone.rows.items × (s.talk.begun ≤ 2147483647) };
}

/// So many statements, and one more.
fn counted(count: u32) -> u32
    ensures { (statements : ℕ) → count ≡ counted statements → result ≡ counted (statements + 1) }
{
    if count < PAIRS { count + 1 } else { count }
}

/// A line of a kind, where a statement has this pair of slots.
fn limited(pair: Option<u32>, kind: Result<LineKind, Spot>) -> Result<LineKind, Spot>
    ensures limited { kinds result ≡ limited pair (kinds kind) }
    ensures same { IfOk result (λ line. kind ≡ Ok line) }
    ensures room { IfOk result (λ line. kind_in line ≡ Statement → pair ≢ None) }
{
    match kind {
        Ok(LineKind::Statement(said)) => {
            match pair {
                Some(_) => Ok(LineKind::Statement(said)),
                None => Err(Spot {
                    column: 1,
                    kind: RefusalKind::Limit,
                }),
            }
        }
        Ok(LineKind::Passed) => Ok(LineKind::Passed),
        Ok(LineKind::Header(version)) => Ok(LineKind::Header(version)),
        Ok(LineKind::Setup) => Ok(LineKind::Setup),
        Err(spot) => Err(spot),
    }
}

impl Served {
    /// A session of which no line has come.
    pub fn new(alloc: Global) -> Result<Served, Errno>
        ensures ok { IfOk result (λ served. Keeps served nothing_accepted) }
        ensures memory_alone { IsOkUnless result Errno.NoMemory }
    {
        let alone = Alone::new(alloc)?;
        let talk = Talk::for_setup(alloc)?;
        Ok(Served {
            stage: Stage::Opening,
            talk,
            count: 0,
            alone,
            under_way: None,
        })
    }

    /// Answers a line, and appends what it prints. What was accepted so far, with this line, has just so much more text; a refused line
    /// counts as not given. `due` and `data` are questions (`specs/Questions`).
    ///
    /// `NoMemory` alone is an error. Then nothing is appended, what was accepted is as it was, and the line is still to be answered: given
    /// again, it is answered as it would have been. Where it was begun it goes on from where it stood, and until it is answered any other
    /// line is an error too, and changes nothing.
    pub fn answer(&mut self, alloc: Global, line: &[u8], out: &mut Vec<u8>) -> Result<Answer, Errno>
        ensures answered { (said : Accepted) → CanAnswer self.old said line.now → IfOk result (λ answer. (text : List ℕ) × (then : Accepted)
            × (out.new.items ≡ out.old.items ++ text) × IsReply said line.now answer text then × Keeps self.new then) }
        ensures kept { (said : Accepted) → CanAnswer self.old said line.now → OnErr result (CanAnswer self.new said line.now) }
        ensures out_kept { OnErr result (out.new.items ≡ out.old.items) }
        ensures other { IsOther self.old.under_way line.now → (result ≡ Err Errno.NoMemory) × (self.new ≡ self.old) }
        ensures memory_alone { IsOkUnless result Errno.NoMemory }
    {
        match self.under_way.take() {
            None => self.reply(alloc, line, out),
            Some(under_way) => self.resume(alloc, under_way, line, out),
        }
    }

    /// Answers a line or a question, where no line is under way.
    fn reply(&mut self, alloc: Global, line: &[u8], out: &mut Vec<u8>) -> Result<Answer, Errno>
        ensures answered { (said : Accepted) → Keeps self.old said → IfOk result (λ answer. (text : List ℕ) × (then : Accepted)
            × (out.new.items ≡ out.old.items ++ text) × IsReply said line.now answer text then × Keeps self.new then) }
        ensures kept { (said : Accepted) → Keeps self.old said → OnErr result (CanAnswer self.new said line.now) }
        ensures out_kept { OnErr result (out.new.items ≡ out.old.items) }
        ensures memory_alone { IsOkUnless result Errno.NoMemory }
    {
        match question_of(self.stage, line) {
            Question::Nothing => self.say(alloc, line, out),
            Question::Due => self.due(alloc, out),
            Question::Data => self.data(alloc, line, out),
        }
    }

    /// Goes on with the line that is under way, where it is given again.
    fn resume(
        &mut self,
        alloc: Global,
        under_way: UnderWay,
        line: &[u8],
        out: &mut Vec<u8>,
    ) -> Result<Answer, Errno>
        ensures answered { (said : Accepted) → self.old.under_way ≡ None → IsUnderWay under_way self.old said line.now → IfOk result (λ answer. (text : List ℕ) × (then : Accepted)
            × (out.new.items ≡ out.old.items ++ text) × IsReply said line.now answer text then × Keeps self.new then) }
        ensures kept { (said : Accepted) → IsUnderWay under_way self.old said line.now → OnErr result (CanAnswer self.new said line.now) }
        ensures out_kept { OnErr result (out.new.items ≡ out.old.items) }
        ensures other { under_way.line.items ≢ line.now → (result ≡ Err Errno.NoMemory) × (self.new ≡ record self.old { under_way = Some under_way }) }
        ensures memory_alone { IsOkUnless result Errno.NoMemory }
    {
        if under_way.is_line(line) {
            return self.go_on(alloc, under_way, out);
        }
        self.under_way = Some(under_way);
        Err(Errno::NoMemory)
    }

    /// Answers a line of the session.
    fn say(&mut self, alloc: Global, line: &[u8], out: &mut Vec<u8>) -> Result<Answer, Errno>
        ensures answered { (said : Accepted) → Keeps self.old said → IfOk result (λ answer. (text : List ℕ) × (then : Accepted)
            × (out.new.items ≡ out.old.items ++ text) × IsAnswer said line.now (kind_after said line.now) answer text then × Keeps self.new then) }
        ensures kept { (said : Accepted) → Keeps self.old said → question_of said.stage line.now ≡ Nothing → OnErr result (CanAnswer self.new said line.now) }
        ensures out_kept { OnErr result (out.new.items ≡ out.old.items) }
        ensures memory_alone { IsOkUnless result Errno.NoMemory }
    {
        match self.kind(line) {
            Ok(kind) => self.take(alloc, kind, false, line, line, out),
            Err(spot) => Ok(Answer::Refused(spot)),
        }
    }

    /// Answers `due`.
    fn due(&mut self, alloc: Global, out: &mut Vec<u8>) -> Result<Answer, Errno>
        ensures answered { (said : Accepted) → Keeps self.old said → IfOk result (λ answer. (answer ≡ Answer.Text)
            × (out.new.items ≡ out.old.items ++ due_text (earliest (carried_out said.statements).behind.world.timers)) × Keeps self.new said) }
        ensures kept { OnErr result (self.new ≡ self.old) }
        ensures out_kept { OnErr result (out.new.items ≡ out.old.items) }
        ensures memory_alone { IsOkUnless result Errno.NoMemory }
    {
        let text = due_line(alloc, self.alone.core.due())?;
        out.extend_from_slice(&text)?;
        Ok(Answer::Text)
    }

    /// Answers a `data`.
    fn data(&mut self, alloc: Global, line: &[u8], out: &mut Vec<u8>) -> Result<Answer, Errno>
        requires { length line.now ≤ LINE_MAX }
        ensures answered { (said : Accepted) → Keeps self.old said → IfOk result (λ answer. (text : List ℕ) × (then : Accepted)
            × (out.new.items ≡ out.old.items ++ text) × IsData said (stands_for (carried_out said.statements).value line.now) (data_kind said line.now) answer text then × Keeps self.new then) }
        ensures kept { (said : Accepted) → Keeps self.old said → question_of said.stage line.now ≡ Data → OnErr result (CanAnswer self.new said line.now) }
        ensures out_kept { OnErr result (out.new.items ≡ out.old.items) }
        ensures memory_alone { IsOkUnless result Errno.NoMemory }
    {
        let rest = behind_data(line);
        let of_chip = self.talk.has_chip(text_at(0, 1, rest));
        let statement = read_statement(alloc, of_chip, rest)?;
        match limited(
            self.pair(),
            moved(shift_of(of_chip), line_kind(self.stage, &statement)),
        ) {
            Ok(kind) => self.take(alloc, kind, true, line, &statement, out),
            Err(spot) => Ok(Answer::Refused(spot)),
        }
    }

    /// The pair of slots of the next statement.
    fn pair(&self) -> Option<u32>
        ensures pair { result ≡ pair_behind self.now.count (map row_file self.now.alone.rows.items) }
        ensures within { IfSome result (λ pair. pair < PAIRS) }
    {
        pair_behind(self.count, &self.alone.rows)
    }

    /// What a line is, or why it is refused.
    fn kind(&self, line: &[u8]) -> Result<LineKind, Spot>
        ensures kind { (said : Accepted) → Keeps self.now said → kinds result ≡ kind_after said line.now }
        ensures room { IfOk result (λ kind. kind_in kind ≡ Statement → pair_behind self.now.count (map row_file self.now.alone.rows.items) ≢ None) }
        ensures read { IfOk result (λ kind. IsSaid (columns line.now) kind) }
    {
        if line.len() > LINE_MAX {
            return Err(Spot {
                column: TOO_LONG,
                kind: RefusalKind::Limit,
            });
        }
        limited(self.pair(), line_kind(self.stage, line))
    }

    /// Accepts a line of a kind, or the one that a `data` stands for.
    fn take(
        &mut self,
        alloc: Global,
        kind: LineKind,
        reads: bool,
        line: &[u8],
        statement: &[u8],
        out: &mut Vec<u8>,
    ) -> Result<Answer, Errno>
        requires room { kind_in kind ≡ Statement → pair_behind self.old.count (map row_file self.old.alone.rows.items) ≢ None }
        requires read { IsSaid (columns statement.now) kind }
        ensures answered { (said : Accepted) → Keeps self.old said → IfOk result (λ answer. (text : List ℕ) × (then : Accepted)
            × (out.new.items ≡ out.old.items ++ text) × IsTaken reads said statement.now (Ok (kind_in kind)) answer text then × Keeps self.new then) }
        ensures kept { (said : Accepted) → Keeps self.old said → (kind_in kind ≡ Statement → IsStatementLine reads said line.now) → statement.now ≡ statement_for reads said line.now → OnErr result (CanAnswer self.new said line.now) }
        ensures out_kept { OnErr result (out.new.items ≡ out.old.items) }
        ensures memory_alone { IsOkUnless result Errno.NoMemory }
    {
        match kind {
            LineKind::Statement(said) => {
                let statement = gl_script::Statement::of(0, statement, said);
                self.begin(alloc, reads, line, &statement, out)
            }
            _ => {
                self.accept(kind);
                Ok(Answer::Text)
            }
        }
    }

    /// Accepts a line of a kind that is no statement.
    fn accept(&mut self, kind: LineKind)
        requires { kind_in kind ≢ Statement }
        ensures { (said : Accepted) (line : List ℕ) → Keeps self.old said → (then : Accepted) × IsAnswer said line (Ok (kind_in kind)) Answer.Text [] then × Keeps self.new then }
    {
        match kind {
            LineKind::Passed => {}
            LineKind::Header(version) => self.stage = Stage::Headed(version),
            LineKind::Setup => self.stage = LineKind::Setup.stage_after(self.stage),
            LineKind::Statement(_) => unreachable!(),
        }
    }

    /// Begins a statement, that of a line or of a `data`, and carries it out.
    fn begin(
        &mut self,
        alloc: Global,
        reads: bool,
        line: &[u8],
        statement: &gl_script::Statement<'_>,
        out: &mut Vec<u8>,
    ) -> Result<Answer, Errno>
        requires room { pair_behind self.old.count (map row_file self.old.alone.rows.items) ≢ None }
        ensures answered { (said : Accepted) → Keeps self.old said → IfOk result (λ answer. (text : List ℕ) × (then : Accepted)
            × (out.new.items ≡ out.old.items ++ text) × IsTaken reads said statement.now.line.now (Ok Statement) answer text then × Keeps self.new then) }
        ensures kept { (said : Accepted) → Keeps self.old said → IsStatementLine reads said line.now → statement.now.line.now ≡ statement_for reads said line.now → OnErr result (CanAnswer self.new said line.now) }
        ensures out_kept { OnErr result (out.new.items ≡ out.old.items) }
        ensures memory_alone { IsOkUnless result Errno.NoMemory }
    {
        match self.pair() {
            Some(pair) => self.begin_in(alloc, pair, reads, line, statement, out),
            None => unreachable!(),
        }
    }

    /// The same in a pair of slots.
    fn begin_in(
        &mut self,
        alloc: Global,
        pair: u32,
        reads: bool,
        line: &[u8],
        statement: &gl_script::Statement<'_>,
        out: &mut Vec<u8>,
    ) -> Result<Answer, Errno>
        requires pair { Some pair ≡ pair_behind self.old.count (map row_file self.old.alone.rows.items) }
        requires within { pair < PAIRS }
        ensures answered { (said : Accepted) → Keeps self.old said → IfOk result (λ answer. (text : List ℕ) × (then : Accepted)
            × (out.new.items ≡ out.old.items ++ text) × IsTaken reads said statement.now.line.now (Ok Statement) answer text then × Keeps self.new then) }
        ensures kept { (said : Accepted) → Keeps self.old said → IsStatementLine reads said line.now → statement.now.line.now ≡ statement_for reads said line.now → OnErr result (CanAnswer self.new said line.now) }
        ensures out_kept { OnErr result (out.new.items ≡ out.old.items) }
        ensures memory_alone { IsOkUnless result Errno.NoMemory }
    {
        let under_way = UnderWay::new(alloc, reads, line)?;
        self.talk.begun = pair;
        self.talk.begin(alloc, statement)?;
        self.count = counted(self.count);
        self.go_on(alloc, under_way, out)
    }

    /// Goes on with a line that is under way. When out of memory it is left so.
    fn go_on(
        &mut self,
        alloc: Global,
        under_way: UnderWay,
        out: &mut Vec<u8>,
    ) -> Result<Answer, Errno>
        ensures answered { (said : Accepted) (line : List ℕ) → self.old.under_way ≡ None → HasBegun under_way self.old said line → IfOk result (λ answer. (text : List ℕ) × (then : Accepted)
            × (out.new.items ≡ out.old.items ++ text) × IsTaken under_way.reads said line (Ok Statement) answer text then × Keeps self.new then) }
        ensures left { (said : Accepted) (line : List ℕ) → HasBegun under_way self.old said line → OnErr result (IsLeft self.new.under_way under_way.line.items under_way.reads self.new said line) }
        ensures out_kept { OnErr result (out.new.items ≡ out.old.items) }
        ensures memory_alone { IsOkUnless result Errno.NoMemory }
    {
        let mut under_way = under_way;
        match self.finish(alloc, &mut under_way, out) {
            Ok(()) => Ok(Answer::Text),
            Err(errno) => {
                self.under_way = Some(under_way);
                Err(errno)
            }
        }
    }

    /// Carries a line that is under way out to its end, and appends what it prints.
    fn finish(
        &mut self,
        alloc: Global,
        going: &mut UnderWay,
        out: &mut Vec<u8>,
    ) -> Result<(), Errno>
        ensures session { IsSameSession self.old self.new }
        ensures line { IsAsBefore going.old going.new }
        ensures gone { (p : Program Names) (s : Standing PlannedPort) → IsGoing p s going.old self.old → IsGoing p s going.new self.new }
        ensures ended { OnOk result (left_by (left self.new.talk) going.new.step ≡ done (names_in self.new.talk)) }
        ensures told { OnOk result (told_by going.new.step ≡ None) }
        ensures text { OnOk result (out.new.items ≡ out.old.items ++ text_shown going.new.reads going.new.first going.new.printed.items) }
        ensures out_kept { OnErr result (out.new.items ≡ out.old.items) }
        ensures memory_alone { IsOkUnless result Errno.NoMemory }
    {
        match self.play(alloc, going) {
            Ok(()) => going.give(alloc, out),
            Err(errno) => Err(errno),
        }
    }

    /// Carries a line that is under way out to the end of its statement.
    fn play(&mut self, alloc: Global, going: &mut UnderWay) -> Result<(), Errno>
        ensures session { IsSameSession self.old self.new }
        ensures line { IsAsBefore going.old going.new }
        ensures gone { (p : Program Names) (s : Standing PlannedPort) → IsGoing p s going.old self.old → IsGoing p s going.new self.new }
        ensures ended { OnOk result (left_by (left self.new.talk) going.new.step ≡ done (names_in self.new.talk)) }
        ensures told { OnOk result (told_by going.new.step ≡ None) }
        ensures memory_alone { IsOkUnless result Errno.NoMemory }
    {
        for _ in 0..u64::MAX {
            match self.turn(alloc, going) {
                Ok(true) => {}
                Ok(false) => return Ok(()),
                Err(errno) => return Err(errno),
            }
        }
        Err(Errno::NoMemory)
    }

    /// What comes next of a line, done. False at the end of its statement.
    fn turn(&mut self, alloc: Global, going: &mut UnderWay) -> Result<bool, Errno>
        ensures session { IsSameSession self.old self.new }
        ensures line { IsAsBefore going.old going.new }
        ensures gone { (p : Program Names) (s : Standing PlannedPort) → IsGoing p s going.old self.old → IsGoing p s going.new self.new }
        ensures ended { IfOk result (λ more. more ≡ false → left_by (left self.new.talk) going.new.step ≡ done (names_in self.new.talk)) }
        ensures told { IfOk result (λ more. more ≡ false → told_by going.new.step ≡ None) }
        ensures memory_alone { IsOkUnless result Errno.NoMemory }
    {
        match mem::replace(&mut going.step, Step::Told(None)) {
            Step::Told(got) => self.tell(alloc, going, got),
            Step::Asks(what) => self.carry_out(alloc, going, &what),
            Step::Prints(text) => going.print(text),
        }
    }

    /// Asks the talk what it does next, by this result.
    fn tell(&mut self, alloc: Global, going: &mut UnderWay, got: Option<Got>) -> Result<bool, Errno>
        ensures session { IsSameSession self.old self.new }
        ensures line { IsAsBefore going.old going.new }
        ensures gone { (p : Program Names) (s : Standing PlannedPort) → HasGone p s (Step.Told got) going.old.first going.old.printed.items (left self.old.talk) self.old.alone → IsGoing p s going.new self.new }
        ensures ended { IfOk result (λ more. more ≡ false → left_by (left self.new.talk) going.new.step ≡ done (names_in self.new.talk)) }
        ensures told { IfOk result (λ more. more ≡ false → told_by going.new.step ≡ None) }
        ensures memory_alone { IsOkUnless result Errno.NoMemory }
    {
        let next = self.talk.next(alloc, got.as_ref());
        going.told(next, got)
    }

    /// Carries an operation out.
    fn carry_out(&mut self, alloc: Global, going: &mut UnderWay, what: &Do) -> Result<bool, Errno>
        ensures session { IsSameSession self.old self.new }
        ensures line { IsAsBefore going.old going.new }
        ensures gone { (p : Program Names) (s : Standing PlannedPort) → HasGone p s (Step.Asks what.now) going.old.first going.old.printed.items (left self.old.talk) self.old.alone → IsGoing p s going.new self.new }
        ensures more { IfOk result (λ more. more ≡ true) }
        ensures memory_alone { IsOkUnless result Errno.NoMemory }
    {
        let got = self.alone.perform(alloc, what);
        going.did(what, got)
    }

    /// Closes the files that are open, in the order of their numbers: the session is at its end. `NoMemory` alone is an error: then so many
    /// of them are closed, those with the lowest numbers, and all else is as it was. Called again it closes the others in the same way.
    pub fn close(&mut self, alloc: Global) -> Result<(), Errno>
        ensures ended { (said : Accepted) → Keeps self.old said → OnOk result (IsEnded said self.new) }
        ensures closed { (s : Standing PlannedPort) → StandsAs self.old.alone s → OnOk result (StandsAs self.new.alone (all_closed s)) }
        ensures none_open { OnOk result (self.new.alone.rows.items ≡ []) }
        ensures front { (s : Standing PlannedPort) → StandsAs self.old.alone s → OnErr result ((count : ℕ) × StandsAs self.new.alone (front_closed count s)) }
        ensures rest { self.new ≡ record self.old { alone = self.new.alone } }
        ensures memory_alone { IsOkUnless result Errno.NoMemory }
    {
        self.alone.close_all(alloc)
    }
}
