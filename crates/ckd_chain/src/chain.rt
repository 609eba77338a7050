ghost use Rattle.std.specs.Prelude.{◌≡◌, ◌<◌, ◌≤◌, ◌+◌, ◌*◌, IfOk, IfSome, IsSome, OnOk, OnErr, is_none, Some, None};
ghost use Rattle.std.specs.Prelude.{option_map};
ghost use Rattle.ckd_types.specs.Parameters.{is_provisional};
ghost use Rattle.ckd_chain.specs.Facts.{IsChain, SuitsTrack, NeedsTrack, FurtherFrom, GoesFurther, CountsEnd, IsAsking, MayBeWritten, MaySettle};
ghost use Rattle.ckd_chain.specs.Steps.{first_mark, begun_chain, index_of, word_of, standing, stage_of, chain_opened, begin_with, opening_at};
ghost use Rattle.ckd_chain.specs.Steps.{track_needed, need_of, start_of, behind, end_with, waiting, turned_with, looked_with, held_outcome, stepped_by};
ghost use Rattle.ckd_chain.specs.Steps.{stepped, check_outcome, written_by, settled_by, again_from, mode_by, inhibits_by, last_by};
ghost use Rattle.ckd_rules.specs.Facts.{HasRoom, Stands, IsLook, IsRunning};
ghost use Rattle.ckd_rules.specs.Ends.{end_at_word, goes_to};
ghost use Rattle.ckd_types.specs.Ccw.{ccw_at};
ghost use Rattle.ckd_rules.specs.Acts.{answered, taken};
ghost use Rattle.ckd_chain.specs.declared.mark.Stage.TheVariants.{Over, Looks};

use crate::look::look_on;
use crate::{Mark, Progress, Settled, Stage};
use ckd_ccw::Program;
use ckd_rules::{
    Ending, LocalAct, Look, Opening, Stance, Turned, answer, end_of, first_stance, goes_to, no_ccw,
    open, refuse, take, word_at,
};
use ckd_sense::{INVALID_PARAMETER, data_check, equipment, reject};
use ckd_types::{Bytes, CommandEnd, FixedData, Mode, NoMemory, Sense, TrackNo};
use std::alloc::Global;
use std::marker::Model;
use track_image::TrackImage;

/// A running channel program. It runs a command in steps: it says which track the command looks at
/// (`need`), takes that track's image (`step`), and waits where the command edits a track or asks the
/// device (`settle`). Nothing of the device is kept in it but its fixed data and where the chain
/// stands.
#[derive(Debug, Drop)]
pub struct Chain {
    program: Program,
    fixed: FixedData,
    at: Mark,
    before: Mark,
    stage: Option<Stage>,
    held: Option<Ending>,
}

impl Model for Chain {
    ghost use Rattle.ckd_chain.specs.Facts.{IsChain};
    ghost use Rattle.ckd_chain.specs.State.{ChainState};

    ghost Value = { ChainState };

    ghost view = { λ c. record { ccws = c.program; fixed = c.fixed; at = c.at; before = c.before; stage = c.stage; held = c.held } };

    ghost invariant = { λ c. IsChain (record { ccws = c.program; fixed = c.fixed; at = c.at; before = c.before; stage = c.stage; held = c.held }) };
}

fn first_mark() -> Mark
    ensures { result ≡ first_mark }
{
    Mark {
        stance: first_stance(),
        next: Some(0),
    }
}

fn index_of(next: Option<usize>) -> usize
    ensures { result ≡ index_of next }
{
    match next {
        Some(index) => index,
        None => 0,
    }
}

/// The command of the mark's word ends, with the mark's stance behind it. The mark then has the word that the chain goes on
/// to.
fn end_here(program: &Program, at: &mut Mark, ending: Ending) -> CommandEnd
    requires word { IfSome at.old.next (λ i. i < 65536) }
    ensures end { result ≡ end_at_word (index_of at.old.next) (ccw_at program.now (index_of at.old.next)) (record { stance = at.old.stance; ending = ending }) }
    ensures next { at.new ≡ record at.old { next = goes_to program.now (index_of at.old.next) (record { stance = at.old.stance; ending = ending }) } }
    ensures running { IfSome at.new.next (λ j. IsRunning j at.old.stance) }
{
    let nothing = no_ccw();
    let index = index_of(at.next);
    let ccw = word_at(program.ccws(), index, &nothing);
    let next = goes_to(program.ccws(), index, ccw, &at.stance, &ending);
    let end = end_of(index as u16, ccw, &at.stance, ending);
    at.next = next;
    end
}

impl Chain {
    /// A chain at the first word of a program, on a device.
    pub fn begin(program: Program, fixed: FixedData) -> Chain
        ensures { result ≡ begun_chain program fixed }
    {
        let _ = program.len();
        let _ = fixed.cylinders();
        Chain {
            program,
            fixed,
            at: first_mark(),
            before: first_mark(),
            stage: None,
            held: None,
        }
    }

    /// A chain stands on its device.
    pub fn stands(&self)
        ensures { IsChain self.now }
    {
        let _ = &self.fixed;
    }

    /// The program is over.
    pub fn over(&self) -> bool
        ensures { result ≡ is_none self.now.at.next }
    {
        self.at.next.is_none()
    }

    /// The command at hand begins: what it does before it looks at a track. It isn't inlined, so that to ask whether it has begun
    /// costs little.
    #[inline(never)]
    fn begin_command(&mut self)
        requires running { IsSome self.old.at.next }
        requires ready { self.old.stage ≡ None }
        ensures { self.new ≡ chain_opened self.old }
    {
        self.before = self.at;
        let nothing = no_ccw();
        let ccw = word_at(self.program.ccws(), index_of(self.at.next), &nothing);
        let opening = open(&self.fixed, &mut self.at.stance, ccw);
        match opening {
            Opening::Over(ending) => {
                self.stage = Some(Stage::Over);
                self.held = Some(ending);
            }
            Opening::Looks(look) => self.stage = Some(Stage::Looks(look)),
            Opening::Asks(act) => self.stage = Some(Stage::Asks(act)),
        }
    }

    /// The command at hand has begun.
    #[inline(always)]
    fn open(&mut self)
        requires running { IsSome self.old.at.next }
        ensures chain { self.new ≡ chain_opened self.old }
        ensures stage { self.new.stage ≡ Some (stage_of self.old) }
    {
        if self.stage.is_none() {
            self.begin_command();
        }
    }

    /// The track that the command at hand looks at; None where it looks at none. The command has begun
    /// then.
    pub fn need(&mut self) -> Option<TrackNo>
        requires { IsSome self.old.at.next }
        ensures need { result ≡ need_of self.old }
        ensures chain { self.new ≡ chain_opened self.old }
        ensures on_device { IfSome result (λ t. t < self.old.fixed.cylinders * 15) }
    {
        self.open();
        match self.stage {
            Some(Stage::Looks(_)) => Some(self.at.stance.track),
            _ => None,
        }
    }

    /// The command at hand ends as it is held to.
    fn finish(&mut self) -> CommandEnd
        requires running { IsSome self.old.at.next }
        requires over { self.old.stage ≡ Some Over }
        ensures end { result ≡ end_with self.old (held_outcome self.old self.old.held) }
        ensures chain { self.new ≡ behind self.old (held_outcome self.old self.old.held) }
        ensures counted { self.new.at.stance.commands ≡ (start_of self.old).stance.commands + 1 }
    {
        let Some(ending) = self.held.take() else {
            unreachable!()
        };
        let end = end_here(&self.program, &mut self.at, ending);
        self.stage = None;
        end
    }

    /// A look at the track of the stance.
    fn look(&mut self, alloc: Global, look: &Look, image: &TrackImage) -> Result<Progress, NoMemory>
        requires running { IsSome self.old.at.next }
        requires looks { self.old.stage ≡ Some (Looks look.now) }
        ensures progress { IfOk result (λ progress. progress ≡ (looked_with self.old look.now (Some image.now)).progress) }
        ensures chain { OnOk result (self.new ≡ (looked_with self.old look.now (Some image.now)).chain) }
        ensures suits { IfOk result (SuitsTrack (Some image.now)) }
        ensures needs { IfOk result (NeedsTrack (self.old.fixed.cylinders * 15)) }
        ensures further { IfOk result (FurtherFrom self.old (Looks look.now) (Some image.now)) }
        ensures counted { IfOk result (CountsEnd self.old self.new) }
        ensures same { OnErr result (self.new ≡ self.old) }
    {
        let nothing = no_ccw();
        let ccw = word_at(self.program.ccws(), index_of(self.at.next), &nothing);
        let track = self.at.stance.track;
        match look_on(alloc, &self.fixed, image, &mut self.at.stance, ccw, look)? {
            Turned::Ended(ending) => {
                let end = end_here(&self.program, &mut self.at, ending);
                self.stage = None;
                self.held = None;
                Ok(Progress::Ended(end))
            }
            Turned::Onward => Ok(Progress::Need(self.at.stance.track)),
            Turned::Edits(edit, ending) => {
                self.stage = Some(Stage::Over);
                self.held = Some(ending);
                Ok(Progress::Write { track, edit })
            }
        }
    }

    /// A step of a command that has begun.
    fn step_on(
        &mut self,
        alloc: Global,
        stage: &Stage,
        image: Option<&TrackImage>,
    ) -> Result<Progress, NoMemory>
        requires running { IsSome self.old.at.next }
        requires stage { self.old.stage ≡ Some stage.now }
        ensures progress { IfOk result (λ progress. progress ≡ (stepped_by self.old (option_map (λ i. i.now) image.entry) stage.now).progress) }
        ensures chain { OnOk result (self.new ≡ (stepped_by self.old (option_map (λ i. i.now) image.entry) stage.now).chain) }
        ensures suits { IfOk result (SuitsTrack (option_map (λ i. i.now) image.entry)) }
        ensures needs { IfOk result (NeedsTrack (self.old.fixed.cylinders * 15)) }
        ensures further { IfOk result (FurtherFrom self.old stage.now (option_map (λ i. i.now) image.entry)) }
        ensures counted { IfOk result (CountsEnd self.old self.new) }
        ensures same { OnErr result (self.new ≡ self.old) }
    {
        match stage {
            Stage::Over => Ok(Progress::Ended(self.finish())),
            Stage::Looks(look) => match image {
                Some(image) => self.look(alloc, look, image),
                None => Ok(Progress::Need(self.at.stance.track)),
            },
            Stage::Asks(act) => Ok(Progress::Local(*act)),
        }
    }

    /// A step of the command at hand, with the image of the track that it needs. Without that image
    /// it asks for it again; behind the edit of a track it ends. After want of memory the command has
    /// begun, and nothing else.
    pub fn step(&mut self, alloc: Global, image: Option<&TrackImage>) -> Result<Progress, NoMemory>
        requires running { IsSome self.old.at.next }
        ensures progress { IfOk result (λ progress. progress ≡ (stepped self.old (option_map (λ i. i.now) image.entry)).progress) }
        ensures chain { OnOk result (self.new ≡ (stepped self.old (option_map (λ i. i.now) image.entry)).chain) }
        ensures suits { IfOk result (SuitsTrack (option_map (λ i. i.now) image.entry)) }
        ensures needs { IfOk result (NeedsTrack (self.old.fixed.cylinders * 15)) }
        ensures further { IfOk result (GoesFurther self.old (option_map (λ i. i.now) image.entry)) }
        ensures counted { IfOk result (CountsEnd self.old self.new) }
        ensures same { OnErr result (self.new ≡ chain_opened self.old) }
    {
        self.open();
        match self.stage {
            Some(stage) => self.step_on(alloc, &stage, image),
            None => unreachable!(),
        }
    }

    /// Where the chain was before the command at hand is kept as that.
    fn keep_start(&mut self)
        ensures { self.new ≡ record self.old { before = start_of self.old } }
    {
        if self.stage.is_none() {
            self.before = self.at;
        }
    }

    /// The command at hand ends with a check, as if it had done nothing.
    fn check(&mut self, sense: Sense) -> CommandEnd
        requires running { IsSome self.old.at.next }
        ensures end { result ≡ end_with self.old (check_outcome self.old sense) }
        ensures chain { self.new ≡ behind self.old (check_outcome self.old sense) }
        ensures counted { self.new.at.stance.commands ≡ (start_of self.old).stance.commands + 1 }
    {
        self.keep_start();
        let nothing = no_ccw();
        let ccw = word_at(self.program.ccws(), index_of(self.at.next), &nothing);
        self.at.stance = self.before.stance;
        let ending = refuse(&mut self.at.stance, ccw, sense);
        let end = end_here(&self.program, &mut self.at, ending);
        self.stage = None;
        self.held = None;
        end
    }

    /// The device took what the command gave it.
    fn taken(&mut self) -> CommandEnd
        requires running { IsSome self.old.at.next }
        requires asks { IsAsking self.old.stage }
        ensures end { result ≡ end_with self.old (taken (start_of self.old).stance (word_of self.old)) }
        ensures chain { self.new ≡ behind self.old (taken (start_of self.old).stance (word_of self.old)) }
        ensures counted { self.new.at.stance.commands ≡ (start_of self.old).stance.commands + 1 }
    {
        let nothing = no_ccw();
        let ccw = word_at(self.program.ccws(), index_of(self.at.next), &nothing);
        self.at.stance = self.before.stance;
        let ending = take(&mut self.at.stance, ccw);
        let end = end_here(&self.program, &mut self.at, ending);
        self.stage = None;
        self.held = None;
        end
    }

    /// The device answered these bytes.
    fn sent(&mut self, bytes: Bytes) -> CommandEnd
        requires running { IsSome self.old.at.next }
        requires asks { IsAsking self.old.stage }
        ensures end { result ≡ end_with self.old (answered (start_of self.old).stance (word_of self.old) bytes) }
        ensures chain { self.new ≡ behind self.old (answered (start_of self.old).stance (word_of self.old) bytes) }
        ensures counted { self.new.at.stance.commands ≡ (start_of self.old).stance.commands + 1 }
    {
        let nothing = no_ccw();
        let ccw = word_at(self.program.ccws(), index_of(self.at.next), &nothing);
        self.at.stance = self.before.stance;
        let ending = answer(&mut self.at.stance, ccw, bytes);
        let end = end_here(&self.program, &mut self.at, ending);
        self.stage = None;
        self.held = None;
        end
    }

    /// The edit of the command was made, or the device took what it was given.
    fn written(&mut self) -> CommandEnd
        requires running { IsSome self.old.at.next }
        requires written { MayBeWritten self.old.stage }
        ensures end { result ≡ end_with self.old (written_by self.old self.old.stage) }
        ensures chain { self.new ≡ behind self.old (written_by self.old self.old.stage) }
        ensures counted { self.new.at.stance.commands ≡ (start_of self.old).stance.commands + 1 }
    {
        match self.stage {
            Some(Stage::Over) => self.finish(),
            Some(Stage::Asks(_)) => self.taken(),
            _ => unreachable!(),
        }
    }

    /// Ends the command at hand: after its edit or its act, or with a check in place of any step. A
    /// check ends it as if it had done nothing. Takes no memory.
    pub fn settle(&mut self, how: Settled) -> CommandEnd
        requires running { IsSome self.old.at.next }
        requires how { MaySettle self.old how }
        ensures end { result ≡ end_with self.old (settled_by self.old how) }
        ensures chain { self.new ≡ behind self.old (settled_by self.old how) }
        ensures counted { self.new.at.stance.commands ≡ (start_of self.old).stance.commands + 1 }
    {
        match how {
            Settled::Written => self.written(),
            Settled::Equipment => self.check(equipment()),
            Settled::DataCheck => self.check(data_check()),
            Settled::Sent(bytes) => self.sent(bytes),
            Settled::BadParameter => self.check(reject(INVALID_PARAMETER)),
        }
    }

    /// Goes back to before the command at hand, where that has begun, or else to before the command
    /// that ended last. Takes no memory.
    pub fn again(&mut self)
        ensures { self.new ≡ again_from self.old }
    {
        self.at = self.before;
        self.stage = None;
        self.held = None;
    }

    /// How the extent asks for the cache to be used.
    pub fn mode(&self) -> Mode
        ensures { result ≡ mode_by self.now.at.stance.extent }
    {
        match self.at.stance.extent {
            Some(extent) => extent.mode,
            None => Mode::Normal,
        }
    }

    /// The extent forbids fast writes.
    pub fn inhibit_fast(&self) -> bool
        ensures { result ≡ inhibits_by self.now.at.stance.extent }
    {
        match self.at.stance.extent {
            Some(extent) => extent.inhibit_fast,
            None => false,
        }
    }

    /// Whether writes may live in the cache alone: the extent has a number, and its mode isn't bypass. Own.
    pub fn provisional(&self) -> bool
        ensures { result ≡ is_provisional self.now.at.stance.extent }
    {
        match self.at.stance.extent {
            Some(extent) => extent.number.is_some() && extent.mode != Mode::Bypass,
            None => false,
        }
    }

    /// The last track of the extent.
    pub fn extent_last(&self) -> Option<TrackNo>
        ensures last { result ≡ last_by self.now.at.stance.extent }
        ensures on_device { IfSome result (λ t. t < self.now.fixed.cylinders * 15) }
    {
        match self.at.stance.extent {
            Some(extent) => Some(extent.last),
            None => None,
        }
    }
}
