//! The laws of each operation, as contracts of functions that do nothing.
ghost use Rattle.std.specs.Prelude.{◌≡◌, ◌≤◌, ◌<◌, ◌+◌, ◌==◌, ℕ, Bool, true, false, List, [], ◌∷◌, length, Some, None};
ghost use Rattle.std.specs.List.{AllByRecursion};
ghost use Rattle.lnfs_calipso.specs.Label.{IsPreorderWithBottom};
ghost use Rattle.lnfs_types.specs.declared.event.Moment.{Moment};
ghost use Rattle.lnfs_attrs.specs.declared.bitmap.Bitmap.{Bitmap};
ghost use Rattle.lnfs_attrs.specs.declared.view.View.{View as Shown};
ghost use Rattle.lnfs_attrs.specs.declared.raw.RawAttrs.{RawAttrs};
ghost use Rattle.lnfs_attrs.specs.Bitmaps.{has_attr, BitmapFits};
ghost use Rattle.lnfs_attrs.specs.Sizes.{ViewFits, IsAnswer};
ghost use Rattle.lnfs_arguments.specs.declared.stateid.StateId.{StateId};
ghost use Rattle.lnfs_arguments.specs.declared.types.Op.{Op};
ghost use Rattle.lnfs_arguments.specs.declared.types.Op.TheVariants as ops;
ghost use Rattle.lnfs_arguments.specs.declared.types.Compound.{Compound};
ghost use Rattle.lnfs_arguments.specs.declared.types.What.{What};
ghost use Rattle.lnfs_arguments.specs.declared.types.CreateSession.{CreateSession};
ghost use Rattle.lnfs_arguments.specs.declared.types.Sequence.{Sequence};
ghost use Rattle.lnfs_results.specs.declared.types.OpResult.{OpResult};
ghost use Rattle.lnfs_world.specs.World.{Id, Kept, Client, Slot, Session, Node, World, client_at};
ghost use Rattle.lnfs_world.specs.Leases.{is_over, renewed};
ghost use Rattle.lnfs_world.specs.Outcome.{Site, Place, Stands, View, Footprint, begins_at, done_to};
ghost use Rattle.lnfs_world.specs.Tame.{NoneFalls};
ghost use Rattle.lnfs_world.specs.Both.{Both, both_seen, BothStand};
ghost use Rattle.lnfs_world.specs.Lawful.{Lawful};
ghost use Rattle.lnfs_world.specs.Labels.{LabelsRise};
ghost use Rattle.lnfs_operations.specs.declared.numbers.TheConstants.{LEAST_SIZE, MOST_SIZE};
ghost use Rattle.lnfs_operations.specs.ExchangeId.{Arguments, exchange_id};
ghost use Rattle.lnfs_operations.specs.CreateSession.{create_session};
ghost use Rattle.lnfs_operations.specs.DestroySession.{destroy_session};
ghost use Rattle.lnfs_operations.specs.Sequence.{Sent, begun_in, sequence};
ghost use Rattle.lnfs_operations.specs.DestroyClientId.{destroy_clientid};
ghost use Rattle.lnfs_operations.specs.ReclaimComplete.{reclaim_complete};
ghost use Rattle.lnfs_operations.specs.FileHandles.{put_fh, put_root_fh, get_fh, save_fh, restore_fh};
ghost use Rattle.lnfs_operations.specs.Lookup.{lookup, lookup_parent};
ghost use Rattle.lnfs_operations.specs.Access.{access};
ghost use Rattle.lnfs_operations.specs.ReadLink.{read_link};
ghost use Rattle.lnfs_operations.specs.Keeping.{next_sequence, keep_result, keep_created};
ghost use Rattle.lnfs_operations.specs.Identifiers.{client_named};
ghost use Rattle.lnfs_operations.specs.InOrder.{sequence_before};
ghost use Rattle.lnfs_operations.specs.Served.{row, operation};
ghost use Rattle.lnfs_operations.specs.SlotRule.{served};
ghost use Rattle.lnfs_operations.specs.Accepted.{IsSent, AllAccepted, too_many};
ghost use Rattle.lnfs_operations.specs.Retries.{Names};
ghost use Rattle.lnfs_operations.specs.Sizes.{Sizes, FitsResponse, LabelsFit, IsRead, is_level, IsOpRead};
ghost use Rattle.lnfs_operations.specs.Bounds.{Bounds, IsSound};
ghost use Rattle.lnfs_operations.specs.Bounded.{IsBounded};
ghost use Rattle.lnfs_operations.specs.Shown.{bitmap_of, answer_to};
ghost use Rattle.lnfs_operations.specs.Handles.{handle_of};
ghost use Rattle.lnfs_operations.specs.GetAttr.{get_attr, verify, nverify};
ghost use Rattle.lnfs_operations.specs.Create.{create};
ghost use Rattle.lnfs_operations.specs.SetAttr.{set_attr};
ghost use Rattle.lnfs_operations.specs.ReadDir.{Arguments as Listing, read_dir};
ghost use Rattle.lnfs_operations.specs.Link.{link};
ghost use Rattle.lnfs_operations.specs.Remove.{remove};
ghost use Rattle.lnfs_operations.specs.Rename.{rename};
ghost use Rattle.lnfs_operations.specs.Open.{Arguments as Opening, passed_over, open_file};
ghost use Rattle.lnfs_operations.specs.Close.{close};
ghost use Rattle.lnfs_operations.specs.Read.{Arguments as Reading, read};
ghost use Rattle.lnfs_operations.specs.Write.{Arguments as Writing, write, commit};

use crate::extra::ExtraRows;

/// EXCHANGE_ID looks only at what its subject sees and changes only rows of its subject's level.
pub fn exchange_id_is_lawful()
    ensures view { (dom : ℕ → ℕ → Bool) → IsPreorderWithBottom dom → (args : Arguments) →
        View dom (exchange_id args) }
    ensures footprint { (dom : ℕ → ℕ → Bool) → IsPreorderWithBottom dom → (args : Arguments) →
        Footprint dom (exchange_id args) }
{}

/// Each operation on sessions and on the clients behind them looks only at what its subject sees and
/// changes only rows of its subject's level.
pub fn session_operations_are_lawful()
    ensures create_session_view { (dom : ℕ → ℕ → Bool) → IsPreorderWithBottom dom →
        (args : CreateSession) (arguments : List ℕ) → View dom (create_session args arguments) }
    ensures create_session_footprint { (dom : ℕ → ℕ →
        Bool) (args : CreateSession) (arguments : List ℕ) →
        Footprint dom (create_session args arguments) }
    ensures destroy_session_view { (dom : ℕ → ℕ → Bool) → IsPreorderWithBottom dom →
        (session : List ℕ) → View dom (destroy_session session) }
    ensures destroy_session_footprint { (dom : ℕ → ℕ → Bool) (session : List ℕ) →
        Footprint dom (destroy_session session) }
    ensures sequence_view { (dom : ℕ → ℕ → Bool) → IsPreorderWithBottom dom →
        (args : Sequence) (sent : Sent) → View dom (sequence args sent) }
    ensures sequence_footprint { (dom : ℕ → ℕ → Bool) (args : Sequence) (sent : Sent) →
        Footprint dom (sequence args sent) }
    ensures destroy_clientid_view { (dom : ℕ → ℕ → Bool) → IsPreorderWithBottom dom → (client : ℕ) →
        View dom (destroy_clientid client) }
    ensures destroy_clientid_footprint { (dom : ℕ → ℕ → Bool) (client : ℕ) →
        Footprint dom (destroy_clientid client) }
    ensures reclaim_complete_view { (dom : ℕ → ℕ → Bool) → IsPreorderWithBottom dom →
        (one_fs : Bool) → View dom (reclaim_complete one_fs) }
    ensures reclaim_complete_footprint { (dom : ℕ → ℕ → Bool) (one_fs : Bool) →
        Footprint dom (reclaim_complete one_fs) }
{}

/// The keeping of a COMPOUND's result in its slot, and of a CREATE_SESSION's answer in the record of its
/// client, looks only at what its subject sees and changes only rows of its subject's level.
pub fn keeping_is_lawful()
    ensures result_view { (dom : ℕ → ℕ → Bool) → IsPreorderWithBottom dom →
        (slot sequence : ℕ) (kept : Kept) → View dom (keep_result slot sequence kept) }
    ensures result_footprint { (dom : ℕ → ℕ → Bool) (slot sequence : ℕ) (kept : Kept) →
        Footprint dom (keep_result slot sequence kept) }
    ensures created_view { (dom : ℕ → ℕ → Bool) → IsPreorderWithBottom dom →
        (client : ℕ) (kept : Kept) → View dom (keep_created client kept) }
    ensures created_footprint { (dom : ℕ → ℕ → Bool) (client : ℕ) (kept : Kept) →
        Footprint dom (keep_created client kept) }
{}

/// Each operation that reads file handles, names, attributes and links looks only at what its subject sees, so
/// at nothing of the content of a node that it may not read, and changes only what is of the subject's level.
pub fn reading_is_lawful()
    ensures put_fh_view { (site : Site) → IsPreorderWithBottom site.dom → (handle : List ℕ) →
        View site.dom (put_fh site handle) }
    ensures put_fh_footprint { (site : Site) → IsPreorderWithBottom site.dom → (handle : List ℕ) →
        Footprint site.dom (put_fh site handle) }
    ensures put_root_fh_view { (site : Site) → IsPreorderWithBottom site.dom →
        View site.dom put_root_fh }
    ensures put_root_fh_footprint { (site : Site) → IsPreorderWithBottom site.dom →
        Footprint site.dom put_root_fh }
    ensures get_fh_view { (site : Site) → IsPreorderWithBottom site.dom → View site.dom get_fh }
    ensures get_fh_footprint { (site : Site) → IsPreorderWithBottom site.dom →
        Footprint site.dom get_fh }
    ensures save_fh_view { (site : Site) → IsPreorderWithBottom site.dom → View site.dom save_fh }
    ensures save_fh_footprint { (site : Site) → IsPreorderWithBottom site.dom →
        Footprint site.dom save_fh }
    ensures restore_fh_view { (site : Site) → IsPreorderWithBottom site.dom →
        View site.dom restore_fh }
    ensures restore_fh_footprint { (site : Site) → IsPreorderWithBottom site.dom →
        Footprint site.dom restore_fh }
    ensures lookup_view { (site : Site) → IsPreorderWithBottom site.dom → (name : List ℕ) →
        View site.dom (lookup site name) }
    ensures lookup_footprint { (site : Site) → IsPreorderWithBottom site.dom → (name : List ℕ) →
        Footprint site.dom (lookup site name) }
    ensures lookup_parent_view { (site : Site) → IsPreorderWithBottom site.dom →
        View site.dom (lookup_parent site) }
    ensures lookup_parent_footprint { (site : Site) → IsPreorderWithBottom site.dom →
        Footprint site.dom (lookup_parent site) }
    ensures access_view { (site : Site) → IsPreorderWithBottom site.dom → (bits : ℕ) →
        View site.dom (access site bits) }
    ensures access_footprint { (site : Site) → IsPreorderWithBottom site.dom → (bits : ℕ) →
        Footprint site.dom (access site bits) }
    ensures read_link_view { (site : Site) → IsPreorderWithBottom site.dom →
        View site.dom (read_link site) }
    ensures read_link_footprint { (site : Site) → IsPreorderWithBottom site.dom →
        Footprint site.dom (read_link site) }
    ensures get_attr_view { (site : Site) → IsPreorderWithBottom site.dom → (asked : Bitmap) →
        View site.dom (get_attr site asked) }
    ensures get_attr_footprint { (site : Site) → IsPreorderWithBottom site.dom → (asked : Bitmap) →
        Footprint site.dom (get_attr site asked) }
    ensures verify_view { (site : Site) → IsPreorderWithBottom site.dom → (given : RawAttrs) →
        View site.dom (verify site given) }
    ensures verify_footprint { (site : Site) → IsPreorderWithBottom site.dom → (given : RawAttrs) →
        Footprint site.dom (verify site given) }
    ensures nverify_view { (site : Site) → IsPreorderWithBottom site.dom → (given : RawAttrs) →
        View site.dom (nverify site given) }
    ensures nverify_footprint { (site : Site) → IsPreorderWithBottom site.dom → (given : RawAttrs) →
        Footprint site.dom (nverify site given) }
    ensures read_dir_view { (site : Site) → IsPreorderWithBottom site.dom → (args : Listing) →
        View site.dom (read_dir site args) }
    ensures read_dir_footprint { (site : Site) → IsPreorderWithBottom site.dom → (args : Listing) →
        Footprint site.dom (read_dir site args) }
{}

/// CREATE and SETATTR look only at what their subject sees, and change only directories and nodes whose label
/// is the subject's level; what is made has its home there.
pub fn making_is_lawful()
    ensures create_view { (site : Site) → IsPreorderWithBottom site.dom →
        (what : What) (name : List ℕ) (given : RawAttrs) →
        View site.dom (create site what name given) }
    ensures create_footprint { (site : Site) → IsPreorderWithBottom site.dom →
        (what : What) (name : List ℕ) (given : RawAttrs) →
        Footprint site.dom (create site what name given) }
    ensures set_attr_view { (site : Site) → IsPreorderWithBottom site.dom →
        (id : StateId) (given : RawAttrs) → View site.dom (set_attr site id given) }
    ensures set_attr_footprint { (site : Site) → IsPreorderWithBottom site.dom →
        (id : StateId) (given : RawAttrs) → Footprint site.dom (set_attr site id given) }
{}

/// Each operation that gives, takes out and moves names looks only at what its subject sees and changes only what is of
/// the subject's level.
pub fn naming_is_lawful()
    ensures link_view { (site : Site) → IsPreorderWithBottom site.dom → (name : List ℕ) →
        View site.dom (link site name) }
    ensures link_footprint { (site : Site) → IsPreorderWithBottom site.dom → (name : List ℕ) →
        Footprint site.dom (link site name) }
    ensures remove_view { (site : Site) → IsPreorderWithBottom site.dom → (name : List ℕ) →
        View site.dom (remove site name) }
    ensures remove_footprint { (site : Site) → IsPreorderWithBottom site.dom → (name : List ℕ) →
        Footprint site.dom (remove site name) }
    ensures rename_view { (site : Site) → IsPreorderWithBottom site.dom → (old new : List ℕ) →
        View site.dom (rename site old new) }
    ensures rename_footprint { (site : Site) → IsPreorderWithBottom site.dom → (old new : List ℕ) →
        Footprint site.dom (rename site old new) }
{}

/// Each operation on files and their opens looks only at what its subject sees, so at no open of a level that it doesn't
/// dominate, and changes only files whose label is the subject's level and opens of that level.
pub fn files_are_lawful()
    ensures open_view { (site : Site) → IsPreorderWithBottom site.dom → (args : Opening) →
        View site.dom (open_file site args) }
    ensures open_footprint { (site : Site) → IsPreorderWithBottom site.dom → (args : Opening) →
        Footprint site.dom (open_file site args) }
    ensures close_view { (site : Site) → IsPreorderWithBottom site.dom → (id : StateId) →
        View site.dom (close id) }
    ensures close_footprint { (site : Site) → IsPreorderWithBottom site.dom → (id : StateId) →
        Footprint site.dom (close id) }
    ensures read_view { (site : Site) → IsPreorderWithBottom site.dom → (args : Reading) →
        View site.dom (read site args) }
    ensures read_footprint { (site : Site) → IsPreorderWithBottom site.dom → (args : Reading) →
        Footprint site.dom (read site args) }
    ensures write_view { (site : Site) → IsPreorderWithBottom site.dom → (args : Writing) →
        View site.dom (write site args) }
    ensures write_footprint { (site : Site) → IsPreorderWithBottom site.dom → (args : Writing) →
        Footprint site.dom (write site args) }
    ensures commit_view { (site : Site) → IsPreorderWithBottom site.dom →
        View site.dom (commit site) }
    ensures commit_footprint { (site : Site) → IsPreorderWithBottom site.dom →
        Footprint site.dom (commit site) }
{}

/// Each operation behind the results so far of its COMPOUND keeps the two laws of erasure, and what has to stand of world and
/// place.
pub fn operations_are_lawful<X: ExtraRows>()
    ensures { (site : Site) → IsPreorderWithBottom site.dom →
        (sent : Sent) (c : Compound) (so_far : List OpResult) (op : Op) →
        Lawful site.dom (both_seen X.extra.level_of site.dom) (BothStand X.extra.Fact site.dom)
        (operation X.extra site sent c so_far op) }
{}

/// Each COMPOUND under the slot rule, with the keeping of its result, keeps the two laws of erasure, and
/// what has to stand of world and place.
pub fn compounds_are_lawful<X: ExtraRows>()
    ensures { (site : Site) → IsPreorderWithBottom site.dom → (sent : Sent) (c : Compound) →
        Lawful site.dom (both_seen X.extra.level_of site.dom) (BothStand X.extra.Fact site.dom)
        (served X.extra site sent c) }
{}

/// A COMPOUND that comes again on its slot gets the result that is kept there, and the world stays
/// (RFC 8881 section 2.10.6.1).
pub fn retries_are_answered_again<X: ExtraRows>()
    ensures kept { (site : Site) (sent : Sent) (c : Compound) (level : ℕ) (moment : Moment)
        (b : Both X.extra.Row) (args : Sequence) (rest : List Op) (x : Session) (slot : Slot)
        (reply : List ℕ) →
        c.minor ≡ 2 → c.ops ≡ ops.Sequence args ∷ rest → IsSent X.extra.grammar sent c →
        AllAccepted X.extra.grammar b.world →
        Names level b.world args sent x slot →
        slot
        ≡ record { sequence = args.sequence; kept = Some (record { arguments = sent.arguments; reply = reply }) } →
        served X.extra site sent c (begins_at level moment) b
        ≡ record { answer = record { result = reply; denial = None }; place = begins_at level moment; state = b } }
    // So does a CREATE_SESSION under the last sequence of its client's record (RFC 8881 section 18.36.4).
    ensures created { (site : Site) (sent : Sent) (c : Compound) (level : ℕ) (moment : Moment)
        (b : Both X.extra.Row) (args : CreateSession) (rest : List Op) (client : Client)
        (reply : List ℕ) →
        c.minor ≡ 2 → c.count ≡ 1 → c.ops ≡ ops.CreateSession args ∷ rest →
        (client_named args.client).level ≡ level →
        client_at b.world.clients (client_named args.client) ≡ Some client →
        args.sequence ≡ sequence_before client.sequence →
        client.kept ≡ Some (record { arguments = sent.arguments; reply = reply }) →
        served X.extra site sent c (begins_at level moment) b
        ≡ record { answer = record { result = reply; denial = None }; place = begins_at level moment; state = b } }
    // A new COMPOUND under the next sequence of its slot, of no more operations than its session grants, acts once:
    // with the same arguments it gets its first result, and leaves what the first one left.
    ensures once { (site : Site) → IsPreorderWithBottom site.dom →
        (sent again : Sent) (c : Compound) (level : ℕ) (moment later : Moment)
        (b : Both X.extra.Row) (args : Sequence) (rest : List Op) (x : Session) (slot : Slot) →
        BothStand X.extra.Fact site.dom (begins_at level moment) b → c.minor ≡ 2 →
        c.ops ≡ ops.Sequence args ∷ rest →
        Names level b.world args sent x slot → sent.count ≤ x.channel.max_operations →
        args.sequence ≡ next_sequence slot.sequence →
        again.arguments ≡ sent.arguments → again.size ≤ x.channel.max_request →
        again.count ≤ x.channel.max_operations →
        let first = served X.extra site sent c (begins_at level moment) b in
        served X.extra site again c (begins_at level later) first.state
        ≡ record { answer = record { result = first.answer.result; denial = None }; place = begins_at level later; state = first.state } }
    // So does a CREATE_SESSION under the next sequence of its client's record, be it granted or refused.
    ensures created_once { (site : Site) (sent again : Sent) (c : Compound) (level : ℕ)
        (moment later : Moment) (b : Both X.extra.Row) (args : CreateSession) (client : Client) →
        c.minor ≡ 2 → c.count ≡ 1 → c.ops ≡ ops.CreateSession args ∷ [] →
        (client_named args.client).level ≡ level →
        client_at b.world.clients (client_named args.client) ≡ Some client →
        args.sequence ≡ client.sequence → again.arguments ≡ sent.arguments →
        let first = served X.extra site sent c (begins_at level moment) b in
        served X.extra site again c (begins_at level later) first.state
        ≡ record { answer = record { result = first.answer.result; denial = None }; place = begins_at level later; state = first.state } }
    // A COMPOUND that counts more operations than its session grants is refused each time that it comes, and changes
    // nothing (RFC 8881 section 18.36.3).
    ensures refused { (site : Site) (sent : Sent) (c : Compound) (level : ℕ) (moment : Moment)
        (b : Both X.extra.Row) (args : Sequence) (rest : List Op) (x : Session) (slot : Slot) →
        c.minor ≡ 2 → c.ops ≡ ops.Sequence args ∷ rest → Names level b.world args sent x slot →
        x.channel.max_operations < sent.count →
        served X.extra site sent c (begins_at level moment) b
        ≡ record { answer = too_many c args; place = begins_at level moment; state = b } }
    // So what a slot keeps was accepted: its arguments are read as a COMPOUND of no more operations than the session grants.
    ensures accepted { (site : Site) → IsPreorderWithBottom site.dom → LabelsFit site →
        (sent : Sent) (c : Compound) (level : ℕ) (moment : Moment) (b : Both X.extra.Row) →
        BothStand X.extra.Fact site.dom (begins_at level moment) b → is_level site level ≡ true →
        Bounds site b.world → IsRead c →
        IsSent X.extra.grammar sent c → AllAccepted X.extra.grammar b.world →
        AllAccepted X.extra.grammar (served X.extra site sent c (begins_at level moment)
        b).state.world }
{}

/// The result of each operation behind the results so far of its COMPOUND is no longer than its bound, by which the
/// room for it is tested before it runs (RFC 8881 section 2.10.6.4); and that of an operation of the table which is
/// refused has at most 12 bytes. So it is where world and place stand, labels are short, and what is stored keeps
/// its limits. These are kept behind each operation, so that the next one finds them.
pub fn results_are_bounded<X: ExtraRows>()
    ensures bounded { (site : Site) → IsPreorderWithBottom site.dom → LabelsFit site →
        (sent : Sent) (c : Compound) (so_far : List OpResult) (op : Op) (p : Place)
        (b : Both X.extra.Row) →
        BothStand X.extra.Fact site.dom p b → Sizes b.world →
        IsBounded X.extra.grammar op (operation X.extra site sent c so_far op p b).answer }
    ensures kept { (site : Site) → IsPreorderWithBottom site.dom → LabelsFit site →
        (sent : Sent) (c : Compound) (so_far : List OpResult) (op : Op) (p : Place)
        (b : Both X.extra.Row) →
        IsOpRead op → is_level site p.subject ≡ true →
        BothStand X.extra.Fact site.dom p b → Bounds site b.world →
        let t = operation X.extra site sent c so_far op p b in
        BothStand X.extra.Fact site.dom t.place t.state × Bounds site t.state.world }
{}

/// The result of a new COMPOUND on an accepted slot leaves room in a response of its session for the largest
/// wrapping in an RPC message (RFC 8881 section 2.10.6.4).
pub fn results_leave_room<X: ExtraRows>()
    ensures { (site : Site) → IsPreorderWithBottom site.dom → LabelsFit site →
        (sent : Sent) (c : Compound) (level : ℕ) (moment : Moment) (b : Both X.extra.Row)
        (args : Sequence) (rest : List Op) (x : Session) (slot : Slot) →
        BothStand X.extra.Fact site.dom (begins_at level moment) b → is_level site level ≡ true →
        Bounds site b.world → c.minor ≡ 2 →
        c.ops ≡ ops.Sequence args ∷ rest → AllByRecursion IsOpRead rest →
        Names level b.world args sent x slot → args.sequence ≡ next_sequence slot.sequence →
        length c.tag ≤ 1024 → LEAST_SIZE ≤ x.channel.max_response →
        FitsResponse x.channel.max_response
        (served X.extra site sent c (begins_at level moment) b).answer.result }
{}

/// All rows stay within their bounds: their levels are those of the site, their numbers and lengths within the limits of the
/// server, and no level has more rows of a kind than it may have. A site tells labels of its own levels, and the subject
/// is of one of them; of what a request brings, the reading of its bytes has tested what no operation tests.
pub fn bounds_are_kept<X: ExtraRows>()
    // by each operation of the table,
    ensures table { (site : Site) → IsPreorderWithBottom site.dom → LabelsFit site →
        (sent : Sent) (op : Op) (p : Place) (w : World) →
        IsOpRead op → is_level site p.subject ≡ true → Stands site.dom p w →
        Bounds site w → Bounds site (done_to w (row site sent op p w)) }
    // and by a whole COMPOUND, further operations and the keeping of its result too. With its wrapping the result has at
    // most the greatest size of a response.
    ensures kept { (site : Site) → IsPreorderWithBottom site.dom → LabelsFit site →
        (sent : Sent) (c : Compound) (level : ℕ) (moment : Moment) (b : Both X.extra.Row) →
        IsRead c → is_level site level ≡ true →
        BothStand X.extra.Fact site.dom (begins_at level moment) b → Bounds site b.world →
        IsSound site (served X.extra site sent c (begins_at level moment) b).state.world }
    ensures short { (site : Site) → IsPreorderWithBottom site.dom → LabelsFit site →
        (sent : Sent) (c : Compound) (level : ℕ) (moment : Moment) (b : Both X.extra.Row) →
        IsRead c → is_level site level ≡ true →
        BothStand X.extra.Fact site.dom (begins_at level moment) b → Bounds site b.world →
        FitsResponse MOST_SIZE
        (served X.extra site sent c (begins_at level moment) b).answer.result }
{}

/// Whatever COMPOUND is served, no last number of a level falls. So no identifier is given twice.
pub fn numbers_never_fall<X: ExtraRows>()
    ensures { (site : Site) → IsPreorderWithBottom site.dom →
        (sent : Sent) (c : Compound) (p : Place) (b : Both X.extra.Row) →
        BothStand X.extra.Fact site.dom p b → (level : ℕ) →
        NoneFalls level b.world.lasts (served X.extra site sent c p b).state.world.lasts }
{}

/// Whatever COMPOUND is served, labels go up alone: a node that stands before and after has a label afterwards that
/// dominates the one that it had.
pub fn labels_rise<X: ExtraRows>()
    ensures { (site : Site) → IsPreorderWithBottom site.dom →
        (sent : Sent) (c : Compound) (level : ℕ) (moment : Moment) (b : Both X.extra.Row) →
        BothStand X.extra.Fact site.dom (begins_at level moment) b →
        LabelsRise site.dom b.world (served X.extra site sent c (begins_at level moment)
        b).state.world }
{}

/// A client's lease lasts for 90 seconds from its last renewal (RFC 8881 section 8.3).
pub fn leases_end()
    // At 90 seconds it isn't over yet, nor is it at a moment before the renewal; behind them it is.
    ensures lasts { (seen secs : ℕ) → secs ≤ seen + 90 → is_over secs (Some seen) ≡ false }
    ensures ends { (seen secs : ℕ) → seen + 90 < secs → is_over secs (Some seen) ≡ true }
    // The SEQUENCE of a new COMPOUND renews the lease of its session's client.
    ensures renews { (p : Place) (w : World) (x : Session) (c : Client) →
        let i : Id = record { level = p.subject; number = x.client } in
        client_at w.clients i ≡ Some c → client_at (done_to w (begun_in p w x)).clients i
        ≡ Some (renewed p.moment c) }
    // What an OPEN ends is of its subject's own level.
    ensures own { (args : Opening) (p : Place) (w : World) (client : ℕ) (n : Node) →
        AllByRecursion (λ o. (o.id.level == p.subject) ≡ true) (passed_over args p w client n) }
{}

/// A bitmap is that of the attributes that it has, and that of a test has those below 256 that pass. What is
/// answered of a view that fits is within the limits of an answer.
pub fn attributes_are_told()
    ensures itself { (b : Bitmap) → BitmapFits b → b ≡ bitmap_of (has_attr b) }
    ensures told { (b : Bitmap) → BitmapFits b → (test : ℕ → Bool) →
        ((n : ℕ) → n < 256 → has_attr b n ≡ test n) → b ≡ bitmap_of test }
    ensures has { (test : ℕ → Bool) (n : ℕ) → n < 256 → has_attr (bitmap_of test) n ≡ test n }
    ensures fits { (test : ℕ → Bool) → BitmapFits (bitmap_of test) }
    ensures answer { (asked : Bitmap) (inner : Bool) (view : Shown) → ViewFits view →
        IsAnswer (answer_to asked inner view) }
    ensures handle { (i : Id) → length (handle_of i) ≡ 12 }
{}
