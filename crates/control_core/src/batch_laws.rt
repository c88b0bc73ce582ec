//! What holds of the batches of a control, and of a publication that took them over, for crates that
//! cite it. The functions do nothing.
ghost use Rattle.std.specs.Prelude.{◌≡◌, ◌++◌, ℕ, List, [], ◌∷◌, Option, length};
ghost use Rattle.urpf_base.specs.declared.address.Addr.{Addr};
ghost use Rattle.urpf_base.specs.declared.kinds.Kind.{Kind};
ghost use Rattle.cover_table.specs.Judging.{judge};
ghost use Rattle.cover_table.specs.Snapshots as snapshots;
ghost use Rattle.cover_table.specs.Snapshots.{Publication, fold, step};
ghost use Rattle.cover_table.specs.declared.batch.Batch.{Batch};
ghost use Rattle.origin_pairs.specs.Pairs.{Pair};
ghost use Rattle.router_config.specs.declared.edits.Edit.{Edit};
ghost use Rattle.rpf_plain.specs.Modes.{IsVerdict};
ghost use Rattle.control_core.specs.Controls.{ControlStandsFor, IsOpened, IsShown, KeepsPublished, Publishes};
ghost use Rattle.control_core.specs.Batches.{AreBatchesOf, IsBatchOf, Mark, StandsFor, first_mark, last_mark};
ghost use Rattle.control_core.specs.States.{ControlState};
ghost use Rattle.control_core.specs.Worlds.{Course, Opening};
ghost use Rattle.control_core.specs.declared.limits.Limits.{Limits};

/// That a new snapshot shows the mark of a control at its opening, that it shows the last mark as long
/// as there is no further one, and the next one once it took the batch over; and that the verdict of
/// what shows the last mark is that of the world at that mark.
pub fn shown_laws()
    ensures opened { (opening : Opening) (limits : Limits) (control : ControlState)
        → IsOpened opening limits control
        → IsShown opening [] control (snapshots.opening opening.settings.interfaces) }
    ensures kept { (opening : Opening) (edits : List Edit) (old new : ControlState) (shown : Publication)
        → KeepsPublished old new → IsShown opening edits old shown → IsShown opening edits new shown }
    ensures edited { (opening : Opening) (edits : List Edit) (courses : List Course) (edit : Edit)
        (old new : ControlState) (shown : Publication) → ControlStandsFor opening edits courses old
        → KeepsPublished old new → IsShown opening edits old shown
        → IsShown opening (edits ++ edit ∷ []) new shown }
    ensures published { (opening : Opening) (edits : List Edit) (courses : List Course)
        (old new : ControlState) (batch : Batch) (shown : Publication)
        → ControlStandsFor opening edits courses old → Publishes old new batch
        → IsShown opening edits old shown → IsShown opening edits new (step shown batch) }
    ensures verdict { (opening : Opening) (edits : List Edit) (courses : List Course)
        (control : ControlState) (shown : Publication)
        (stands : ControlStandsFor opening edits courses control) → IsShown opening edits control shown
        → (iface : ℕ) (source : Option Addr) → IsVerdict stands.marked_kinds stands.marked.rows
        stands.marked.pairs iface source (judge shown iface source) }
{}

/// That a publication with the kinds of a mark and the cells of its world judges as that world does,
/// and that a batch made of the difference leads from the world of one mark to that of the next.
pub fn world_laws()
    ensures first { (kinds : List (ℕ × Kind)) (pairs : List Pair)
        → StandsFor (first_mark kinds pairs) (snapshots.opening kinds) }
    ensures step { (number : ℕ) (before mark : Mark) (s : Publication) (batch : Batch)
        → StandsFor before s → IsBatchOf number before mark batch → StandsFor mark (step s batch) }
    ensures verdict { (mark : Mark) (s : Publication) → StandsFor mark s
        → (iface : ℕ) (source : Option Addr)
        → IsVerdict mark.kinds mark.rows mark.pairs iface source (judge s iface source) }
{}

/// That the fold of batches which are what differs between the worlds of one mark and of the next,
/// from a world without rows on, judges as the world of the last mark does, and has its number.
pub fn fold_judges_as_world()
    ensures verdict { (kinds : List (ℕ × Kind)) (pairs : List Pair) (marks : List Mark)
        (batches : List Batch) → AreBatchesOf 0 (first_mark kinds pairs) marks batches
        → (iface : ℕ) (source : Option Addr)
        → let last : Mark = last_mark (first_mark kinds pairs) marks in
        IsVerdict last.kinds last.rows last.pairs iface source (judge (fold kinds batches) iface source) }
    ensures number { (kinds : List (ℕ × Kind)) (pairs : List Pair) (marks : List Mark)
        (batches : List Batch) → AreBatchesOf 0 (first_mark kinds pairs) marks batches
        → (fold kinds batches).number ≡ length marks }
{}
