//! What a control does: it loads the pairs of a table, pulls the items of a session, takes edits, and
//! publishes the cells that changed in batches.
ghost use Rattle.std.specs.Prelude.{◌≡◌, ◌^◌, ◌<◌, ◌≤◌, ◌↔◌, ℕ, List, [], ◌∷◌, ◌++◌, length, Option, Some, Err};
ghost use Rattle.std.specs.Prelude.{IfOk, OnErr, OnOk, true, false, slice_get, slice_set};
ghost use Rattle.urpf_base.specs.Faults.{CountsFault};
ghost use Rattle.feed_io.specs.Events.{Event};
ghost use Rattle.report_text.specs.Lines.{summary_line};
ghost use Rattle.router_config.specs.Edits.{IsForConfigured};
ghost use Rattle.router_config.specs.Settings.{Settings};
ghost use Rattle.router_config.specs.declared.edits.Edit.{Edit};
ghost use Rattle.rpf_plain.specs.Engine.{new_engine};
ghost use Rattle.rpf_plain.specs.World.{roles_of};
ghost use Rattle.session_fsm.specs.declared.items.Effect.{Effect};
ghost use Rattle.control_core.specs.Controls.{CanBeRefused, ControlStandsFor, CountsOne, Edits, IsOpened, IsUnused};
ghost use Rattle.control_core.specs.Controls.{KeepsKinds, KeepsPublished, LoadsPairs, Publishes};
ghost use Rattle.control_core.specs.Controls.{PublishesDifference, PullsOne, goes_on, refused, route_count, without_pairs};
ghost use Rattle.control_core.specs.History.{StandsFor};
ghost use Rattle.control_core.specs.States.{PeerState};
ghost use Rattle.control_core.specs.Worlds.{Course, Opening, last_number};
ghost use Rattle.control_core.specs.declared.limits.Limits.{Limits};

use crate::control::Control;
use crate::counted_engine::CountedEngine;
use crate::limits::{ITEM_LIMIT, Limits, OCTET_LIMIT, RunFault};
use crate::marks::Marks;
use crate::opening::{first_mark, peers_of};
use crate::publishing::publish_cells;
use crate::pulling::{pull_one, wants_memory};
use crate::set_edits::{add_pairs, edit_sets};
use cover_table::Batch;
use feed_io::{BoxedFeed, Feed};
use report_text::put_summary;
use roa_irr::Pairs;
use router_config::{Config, Edit};
use rpf_plain::SetEngine;
use std::alloc::Global;
use urpf_base::{Line, OutOfMemory, Sink};

impl<E: SetEngine> Control<E> {
    /// The sessions of the configuration, which took no item, over an engine that has the configured
    /// roles and nothing else. Mark 0 is made.
    pub fn new(
        alloc: Global,
        engine: E,
        config: Config,
        limits: Limits,
    ) -> Result<Control<E>, OutOfMemory>
        requires engine { E.state engine ≡ new_engine (roles_of config.interfaces) }
        requires items { limits.items ≤ ITEM_LIMIT }
        requires octets { limits.octets ≤ OCTET_LIMIT }
        ensures { IfOk result (IsOpened (without_pairs config) limits) }
    {
        let peers = peers_of(alloc, &config)?;
        let mut marks = Marks::new(alloc);
        marks.push(first_mark(alloc, config.sessions())?)?;
        let kinds = config.kinds()?;
        Ok(Control {
            alloc,
            sets: CountedEngine::new(engine),
            peers,
            kinds,
            edits: 0,
            marks,
            limits,
            exhausted: false,
        })
    }

    /// Adds the pairs of a table before anything else is done. Answers how many there are, each
    /// counted once. It counts no edit.
    pub fn load_pairs(&mut self, pairs: &Pairs) -> Result<u64, OutOfMemory>
        requires { IsUnused self.old }
        ensures ok { IfOk result (LoadsPairs pairs.now.pairs self.old self.new) }
        ensures opened { OnOk result ((settings : Settings) (limits : Limits)
            → IsOpened (without_pairs settings) limits self.old
            → IsOpened (record { settings = settings; pairs = pairs.now.pairs }) limits self.new) }
        ensures able { OnOk result ((self.old.exhausted ≡ false) × (self.new.exhausted ≡ false)) }
        ensures err { OnErr result (self.new.exhausted ≡ true) }
        ensures published { OnErr result (KeepsPublished self.old self.new) }
        ensures kinds { OnErr result (KeepsKinds self.old self.new) }
        ensures peers { OnErr result (self.new.peers ≡ self.old.peers) }
    {
        let Ok(()) = add_pairs(&mut self.sets, pairs) else {
            self.exhausted = true;
            return Err(OutOfMemory);
        };
        Ok(self.sets.pairs())
    }

    /// Takes the next `count` items of a session, or all, and offers the line of each reset and that of
    /// the end to the sink. The feed is taken out of its slot at its end, and dropped. A pull of an empty
    /// slot does nothing, and neither does one after the end or after want of memory. No other session
    /// changes, no other feed is asked, and no other slot is emptied.
    pub fn pull<K: Sink>(
        &mut self,
        feeds: &mut Vec<Option<Box<dyn Feed + Send>>>,
        session: u32,
        count: Option<u64>,
        out: &mut K,
    ) -> Result<(), RunFault>
        requires session { session < length self.old.peers }
        requires slots { length feeds.old.items ≡ length self.old.peers }
        ensures pull { self.old.exhausted ≡ false
            → PullsOne ⟦<BoxedFeed as Feed>⟧.left session count self.old.limits feeds.old.items feeds.new.items
            (K.held out.old) (K.held out.new) result self.old.peers self.new.peers }
        ensures stands { (opening : Opening) (edits : List Edit) (courses : List Course) (course : Course)
            (peer : PeerState) (gave : List Event) (more : List Effect)
            → ControlStandsFor opening edits courses self.old
            → slice_get courses session ≡ Some course → slice_get self.new.peers session ≡ Some peer
            → StandsFor (course.events ++ gave) (course.effects ++ more) peer
            → ControlStandsFor opening edits (slice_set courses session (goes_on course gave more)) self.new }
        ensures published { KeepsPublished self.old self.new }
        ensures kinds { KeepsKinds self.old self.new }
        ensures feed { CountsOne ⟦<BoxedFeed as Feed>⟧.faults session (result ≡ Err (RunFault.ReadFault session))
            feeds.old.items feeds.new.items }
        ensures sink { CountsFault (result ≡ Err RunFault.WriteFault)
            (K.faults out.old) (K.faults out.new) }
        // Want of memory stays, and nothing is done then.
        ensures memory { self.new.exhausted ≡ true ↔ result ≡ Err RunFault.OutOfMemory }
        ensures exhausted { self.old.exhausted ≡ true → (result ≡ Err RunFault.OutOfMemory)
            × (self.new ≡ self.old) × (feeds.new.items ≡ feeds.old.items) × (out.new ≡ out.old) }
    {
        if self.exhausted {
            return Err(RunFault::OutOfMemory);
        }
        let result = pull_one(
            self.alloc,
            &mut self.peers,
            &mut self.sets,
            &self.limits,
            feeds,
            session,
            count,
            out,
        );
        self.exhausted = wants_memory(&result);
        result
    }

    /// Gives an interface another role or mode, or adds or removes a pair. It counts as an edit also
    /// where it changes nothing. Memory is refused only for a pair that is added and was not there, or
    /// where there are 2^40 - 1 pairs. Nothing but the answers to later calls is changed then.
    pub fn edit(&mut self, edit: &Edit) -> Result<(), OutOfMemory>
        requires few { self.old.edits < 2 ^ 32 }
        requires configured { IsForConfigured self.old.kinds edit.now }
        ensures ok { OnOk result (Edits edit.now self.old self.new) }
        ensures stands { OnOk result ((opening : Opening) (edits : List Edit) (courses : List Course)
            → ControlStandsFor opening edits courses self.old
            → ControlStandsFor opening (edits ++ edit.now ∷ []) courses self.new) }
        ensures able { OnOk result ((self.old.exhausted ≡ false) × (self.new.exhausted ≡ false)) }
        ensures err { OnErr result (self.new ≡ refused self.old) }
        ensures memory { OnErr result (self.old.exhausted ≡ false → CanBeRefused edit.now self.old.engine) }
    {
        if self.exhausted {
            return Err(OutOfMemory);
        }
        let Ok(()) = edit_sets(&mut self.sets, edit) else {
            self.exhausted = true;
            return Err(OutOfMemory);
        };
        self.kinds.apply(edit);
        self.edits += 1;
        Ok(())
    }

    /// Makes the next mark, and its batch: the next number, the interfaces of now, and the cells that
    /// changed since the last mark, each with its cell now. Where memory is refused no mark is made.
    pub fn publish_batch(&mut self) -> Result<Batch, OutOfMemory>
        requires { last_number self.old.marks < 2 ^ 32 }
        ensures ok { IfOk result (Publishes self.old self.new) }
        ensures difference { (opening : Opening) (edits : List Edit) (courses : List Course)
            → ControlStandsFor opening edits courses self.old
            → IfOk result (PublishesDifference opening edits courses self.old) }
        ensures stands { OnOk result ((opening : Opening) (edits : List Edit) (courses : List Course)
            → ControlStandsFor opening edits courses self.old
            → ControlStandsFor opening edits courses self.new) }
        ensures able { OnOk result ((self.old.exhausted ≡ false) × (self.new.exhausted ≡ false)) }
        ensures err { OnErr result (self.new ≡ refused self.old) }
    {
        if self.exhausted {
            return Err(OutOfMemory);
        }
        let published = publish_cells(
            self.alloc,
            &self.peers,
            self.edits,
            &self.kinds,
            &mut self.sets,
            &mut self.marks,
        );
        let Ok(batch) = published else {
            self.exhausted = true;
            return Err(OutOfMemory);
        };
        Ok(batch)
    }

    /// The marks of the publications, mark 0 first.
    pub fn marks(&self) -> &Marks
        ensures { result.now ≡ self.now.marks }
    {
        &self.marks
    }

    /// The number of the last publication.
    pub fn number(&self) -> u64
        ensures { result ≡ last_number self.now.marks }
    {
        self.marks.last_number()
    }

    /// Appends the line of the routes that the sessions have now, and of the pairs, to an empty line.
    pub fn put_summary(&self, to: &mut Line)
        requires { to.old ≡ [] }
        ensures { to.new ≡ summary_line (route_count self.now.peers)
            (length self.now.engine.world.pairs) }
    {
        put_summary(self.sets.rows(), self.sets.pairs(), to);
    }
}
