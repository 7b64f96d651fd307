//! The laws of labels that are carried alone, as the contract of a function that does nothing.
ghost use Rattle.std.specs.Prelude.{◌≡◌, ℕ, true, false, List, Some};
ghost use Rattle.std.specs.List.{list_any};
ghost use Rattle.lnfs_calipso.specs.Label.{IsPreorderWithBottom};
ghost use Rattle.lnfs_attrs.specs.declared.raw.RawAttrs.{RawAttrs};
ghost use Rattle.lnfs_attrs.specs.declared.view.LabelValue.{LabelValue};
ghost use Rattle.lnfs_arguments.specs.declared.stateid.StateId.{StateId};
ghost use Rattle.lnfs_arguments.specs.declared.types.Op.{Op};
ghost use Rattle.lnfs_arguments.specs.declared.types.Op.TheVariants as ops;
ghost use Rattle.lnfs_arguments.specs.declared.types.Compound.{Compound};
ghost use Rattle.lnfs_results.specs.declared.types.OpResult.{OpResult};
ghost use Rattle.lnfs_world.specs.World.{Id, Node, World, node_at};
ghost use Rattle.lnfs_world.specs.Outcome.{Site, Place};
ghost use Rattle.lnfs_world.specs.Both.{Both, BothStand};
ghost use Rattle.lnfs_operations.specs.Carried.{CarriesAlone, AllLow, StandsLow, FurtherCarry, label_of, label_in, sets_label, CarriesLabels, LabelsStay, NoRuleIn, NoRuleDenies, succeeds};
ghost use Rattle.lnfs_operations.specs.Extra.{no_extra};
ghost use Rattle.lnfs_operations.specs.Given.{spelled_by};
ghost use Rattle.lnfs_operations.specs.Sequence.{Sent};
ghost use Rattle.lnfs_operations.specs.Served.{operation};
ghost use Rattle.lnfs_operations.specs.Shown.{label_shown};
ghost use Rattle.lnfs_operations.specs.SlotRule.{served};

use crate::extra::ExtraRows;

/// Where labels are carried alone, on any world of which all rows are of level 0, and for a subject of
/// that level: an operation keeps both, no rule of labels but M9 refuses it, and labels are kept as they
/// were given (RFC 7862 section 9.6.2). Further operations have to owe the same.
pub fn labels_are_kept_as_given<X: ExtraRows>()
    // An operation behind the results so far of its COMPOUND.
    ensures low { (site : Site) → IsPreorderWithBottom site.dom → CarriesAlone site →
        FurtherCarry X.extra →
        (sent : Sent) (c : Compound) (so_far : List OpResult) (op : Op) (p : Place)
        (b : Both X.extra.Row) →
        BothStand X.extra.Fact site.dom p b → StandsLow p b.world →
        let t = operation X.extra site sent c so_far op p b in StandsLow t.place t.state.world }
    ensures rules { (site : Site) → IsPreorderWithBottom site.dom → CarriesAlone site →
        FurtherCarry X.extra →
        (sent : Sent) (c : Compound) (so_far : List OpResult) (op : Op) (p : Place)
        (b : Both X.extra.Row) →
        BothStand X.extra.Fact site.dom p b → StandsLow p b.world →
        NoRuleIn (operation X.extra site sent c so_far op p b).answer }
    // Labels stay, but that a SETATTR sets; a node that is made has the label that is given, or else its directory's.
    ensures labels { (site : Site) → IsPreorderWithBottom site.dom → CarriesAlone site →
        FurtherCarry X.extra →
        (sent : Sent) (c : Compound) (so_far : List OpResult) (op : Op) (p : Place)
        (b : Both X.extra.Row) →
        BothStand X.extra.Fact site.dom p b → StandsLow p b.world →
        CarriesLabels site op p b.world (operation X.extra site sent c so_far op p b).state.world }
    // A SETATTR of a label that succeeds sets it to what was given.
    ensures set { (site : Site) → IsPreorderWithBottom site.dom → CarriesAlone site →
        (sent : Sent) (c : Compound) (so_far : List OpResult) (p : Place) (b : Both X.extra.Row)
        (id : StateId) (given : RawAttrs) (v : LabelValue) (i : Id) →
        BothStand X.extra.Fact site.dom p b → StandsLow p b.world →
        label_in given ≡ Some v → p.current ≡ Some i →
        let t = operation X.extra site sent c so_far (ops.SetAttr id given) p b in
        succeeds t.answer ≡ true →
        (n : Node) × (node_at t.state.world.nodes i ≡ Some n) × (label_of site n ≡ spelled_by v) }
    // The label that is shown of a node is the one that it has.
    ensures shown { (site : Site) → IsPreorderWithBottom site.dom → CarriesAlone site →
        (p : Place) (w : World) (i : Id) (n : Node) →
        StandsLow p w → node_at w.nodes i ≡ Some n →
        label_shown site p n ≡ label_of site n }
    // A COMPOUND as a whole, and what of it was denied.
    ensures compound_low { (site : Site) → IsPreorderWithBottom site.dom → CarriesAlone site →
        FurtherCarry X.extra → (sent : Sent) (c : Compound) (p : Place) (b : Both X.extra.Row) →
        BothStand X.extra.Fact site.dom p b → StandsLow p b.world →
        AllLow (served X.extra site sent c p b).state.world }
    ensures compound_rules { (site : Site) → IsPreorderWithBottom site.dom → CarriesAlone site →
        FurtherCarry X.extra → (sent : Sent) (c : Compound) (p : Place) (b : Both X.extra.Row) →
        BothStand X.extra.Fact site.dom p b → StandsLow p b.world →
        NoRuleDenies (served X.extra site sent c p b).answer.denial }
    // One without a SETATTR of a label leaves every label.
    ensures compound_labels { (site : Site) → IsPreorderWithBottom site.dom → CarriesAlone site →
        FurtherCarry X.extra → (sent : Sent) (c : Compound) (p : Place) (b : Both X.extra.Row) →
        BothStand X.extra.Fact site.dom p b → StandsLow p b.world →
        list_any sets_label c.ops ≡ false →
        LabelsStay b.world (served X.extra site sent c p b).state.world }
    // The operations of the table alone owe nothing.
    ensures table { FurtherCarry no_extra }
{}
