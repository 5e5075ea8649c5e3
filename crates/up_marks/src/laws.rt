//! Laws: what an offer leaves unchanged, so that an engine need only offer an event to the leaves that name it.
ghost use Rattle.std.specs.Prelude.{◌≡◌, ◌<◌, ◌≤◌, ℕ, nat_lt, true, false, List, [], ◌∷◌, ◌++◌, Option, None, Some};
ghost use Rattle.up_expr.specs.Trees.{Tree};
ghost use Rattle.up_expr.specs.Truth.{Sight};
ghost use Rattle.up_expr.specs.Truth as truth;
ghost use Rattle.up_model.specs.declared.event.Event.{Event};
ghost use Rattle.up_model.specs.Held.{has};
ghost use Rattle.up_model.specs.declared.event_id.EventId.{EventId};
ghost use Rattle.up_marks.specs.declared.mark.Mark.{Mark};
ghost use Rattle.up_marks.specs.Agreeing.{Agrees, sight_of};
ghost use Rattle.up_marks.specs.Marking.{IsOnlyId, uses};
ghost use Rattle.up_marks.specs.Naming.{names};
ghost use Rattle.up_marks.specs.Ruling.{may_hear};
ghost use Rattle.up_model.specs.Chronicle.{Chronicle, Expression, Offered};
ghost use Rattle.up_model.specs.Configuration.{Configuration};
ghost use Rattle.up_model.specs.Files.{names_in_order};
ghost use Rattle.up_model.specs.Moves.{move_first};
ghost use Rattle.up_model.specs.Offers.{offer_first, offering};
ghost use Rattle.up_model.specs.Readings.{event_at};
ghost use Rattle.up_model.specs.Seen.{env_of, same_expression, seen};
ghost use Rattle.up_model.specs.Work.{work};
ghost use Rattle.up_marks.specs.Skipping.{ChangesNothing, IsNoted, IsSkipped, Next, ended, expression_of, names_event, next_holds, next_names, next_offer, next_skip, offer_to, skip};

/// An offer of an event that no leaf of an expression names leaves it as true as it was, with the same events
/// kept and taken.
pub fn unnamed_changes_nothing()
    ensures { (config : Configuration) (condition : Option Tree) (x other : Expression) (e : ℕ)
        (c : Chronicle)
        → names_event condition (event_at e c) ≡ false
        → ChangesNothing config condition x (Offered other e) c }
{}

/// What the model offers is an offer to the first expression that is still to be offered the event.
pub fn next_is_offered()
    ensures { (config : Configuration) (e : ℕ) (c : Chronicle)
        → offer_first config (names_in_order config c) e c ≡ offer_to config (next_offer config.jobs c) e c }
{}

/// If no instance may move, and the next expression names the event in no leaf and isn't true, the offer to
/// it is all that is due; the step ends as it would without it, and no instance may move after it.
pub fn skipped()
    ensures { (config : Configuration) (next : Next) (e : ℕ) (c : Chronicle)
        → move_first (names_in_order config c) c ≡ [] → offering c ≡ Some e
        → next_offer config.jobs c ≡ Some next → IsSkipped config next e c
        → IsNoted config (Offered (expression_of next) e) c }
{}

/// Marks that agree with what an expression has seen agree with that and an event that no leaf names.
pub fn unnamed_needs_no_offer()
    ensures { (event_of : EventId → Option ℕ) (marks : List Mark) (tree : Tree) (sights : List Sight)
        (sight : Sight) → names tree sight.name ≡ false → Agrees event_of marks tree sights
        → Agrees event_of marks tree (sights ++ sight ∷ []) }
{}

/// Marks that agree still do so if other ids come to mean other events.
pub fn other_ids_may_change()
    ensures { (event_of moved : EventId → Option ℕ) (marks : List Mark) (tree : Tree) (sights : List Sight)
        → ((id : EventId) → 0 < uses id marks → moved id ≡ event_of id)
        → Agrees event_of marks tree sights → Agrees moved marks tree sights }
{}

/// A step ends as it would if all offers that change nothing were noted at once.
pub fn skipping_ends_alike()
    ensures { (n : ℕ) (config : Configuration) (c : Chronicle) → ended config (skip n config c) ≡ ended config c }
{}

/// After enough of these notes none is left.
pub fn skipping_comes_to_rest()
    ensures { (n : ℕ) (config : Configuration) (c : Chronicle) → work config c ≤ n
        → next_skip config (skip n config c) ≡ None }
{}

/// If none is left, and no instance may move, the next expression names the event, unless it is already true.
pub fn next_is_named()
    ensures { (config : Configuration) (next : Next) (e : ℕ) (c : Chronicle)
        → move_first (names_in_order config c) c ≡ [] → offering c ≡ Some e
        → next_offer config.jobs c ≡ Some next → next_skip config c ≡ None
        → next_holds config next c ≡ false → next_names next e c ≡ true }
{}

/// An offer adds its event to what the expression has seen.
pub fn offered_is_seen()
    ensures { (config : Configuration) (x : Expression) (e : ℕ) (event : Event) (c : Chronicle)
        → same_expression x x ≡ true → event_at e c ≡ Some event
        → seen config x (Offered x e ∷ c)
        ≡ seen config x c ++ sight_of e event.name event.vars (env_of config x c) ∷ [] }
{}

/// An expression holds an event exactly if its marks keep the event's id, if no other id that they keep means it.
pub fn held_by_uses()
    ensures { (event_of : EventId → Option ℕ) (marks : List Mark) (tree : Tree) (sights : List Sight)
        (id : EventId) (e : ℕ)
        → Agrees event_of marks tree sights → event_of id ≡ Some e → IsOnlyId event_of marks id e
        → has e (truth.kept tree sights) ≡ nat_lt 0 (uses id marks) }
{}

/// An offer of an event that each leaf of an expression rules out leaves it as true as it was, with the same events kept and taken.
pub fn ruled_out_changes_nothing()
    ensures { (config : Configuration) (condition : Option Tree) (x other : Expression) (e : ℕ)
        (c : Chronicle)
        → may_hear condition (event_at e c) ≡ false
        → ChangesNothing config condition x (Offered other e) c }
{}
