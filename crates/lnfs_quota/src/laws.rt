//! The laws of usage, as contracts of functions that do nothing.
ghost use Rattle.std.specs.Prelude.{◌≡◌, ℕ, ◌+◌, ◌^◌, ◌<◌, ◌≤◌, true, [], ◌∷◌, ◌++◌, List, Some, None, length, replicate};
ghost use Rattle.lnfs_calipso.specs.declared.lattice.TheConstants.{MAX_LEVELS};
ghost use Rattle.lnfs_world.specs.declared.numbers.TheConstants.{LAST_NUMBER, MOST_FILE};
ghost use Rattle.lnfs_world.specs.Rows.{Rising};
ghost use Rattle.lnfs_world.specs.World.{Id, Inner, Node, Entry, World, node_order, node_at};
ghost use Rattle.lnfs_world.specs.Change.{Change, Make, Touch, Relabel, Drop, apply};
ghost use Rattle.lnfs_world.specs.Usage.{nodes_used, bytes_used, bytes_of};
ghost use Rattle.lnfs_quota.specs.declared.quota.Row.{Row};
ghost use Rattle.lnfs_quota.specs.Quota.{row_at, unused, node_charged, node_credited, resized, moved};
ghost use Rattle.lnfs_quota.specs.Totals.{IsInBounds, AreTotals, leaves_nodes, home_share, label_share};

/// What each change of a world does to what a level uses.
pub fn usage()
    // A node that is there is counted in its home and in its label.
    ensures held_nodes { (nodes : List Node) (i : Id) (n : Node) → node_at nodes i ≡ Some n →
        0 < nodes_used nodes n.id.level }
    ensures held_bytes { (nodes : List Node) (i : Id) (n : Node) → node_at nodes i ≡ Some n →
        bytes_of n n.kind ≤ bytes_used nodes n.label }
    ensures all_nodes { (nodes : List Node) (level : ℕ) → nodes_used nodes level ≤ length nodes }
    // A new node counts one in its home, and its bytes in its label.
    ensures made_nodes { (n : Node) (entry : Entry) (w : World) (level : ℕ) →
        node_at w.nodes n.id ≡ None →
        nodes_used (apply (Make n entry) w).nodes level ≡ nodes_used w.nodes level
        + home_share n level }
    ensures made_bytes { (n : Node) (entry : Entry) (w : World) (level : ℕ) →
        node_at w.nodes n.id ≡ None →
        bytes_used (apply (Make n entry) w).nodes level ≡ bytes_used w.nodes level
        + label_share n level }
    // So much is gone with a node that goes with its last name.
    ensures dropped_nodes { (entry : Entry) (n : Node) (w : World) (level : ℕ) →
        Rising node_order w.nodes → node_at w.nodes entry.node ≡ Some n →
        nodes_used (apply (Drop entry) w).nodes level + home_share n level
        ≡ nodes_used w.nodes level }
    ensures dropped_bytes { (entry : Entry) (n : Node) (w : World) (level : ℕ) →
        Rising node_order w.nodes → node_at w.nodes entry.node ≡ Some n →
        bytes_used (apply (Drop entry) w).nodes level + label_share n level
        ≡ bytes_used w.nodes level }
    // Another content counts in place of the one before, and after another label in that one.
    ensures touched_nodes { (i : Id) (inner : Inner) (w : World) (level : ℕ) →
        nodes_used (apply (Touch i inner) w).nodes level ≡ nodes_used w.nodes level }
    ensures touched_bytes { (i : Id) (inner : Inner) (n : Node) (w : World) (level : ℕ) →
        node_at w.nodes i ≡ Some n →
        bytes_used (apply (Touch i inner) w).nodes level + label_share n level
        ≡ bytes_used w.nodes level + label_share (record n { inner = inner }) level }
    ensures relabelled_nodes { (i : Id) (label : ℕ) (inner : Inner) (w : World) (level : ℕ) →
        nodes_used (apply (Relabel i label inner) w).nodes level ≡ nodes_used w.nodes level }
    ensures relabelled_bytes { (i : Id) (label : ℕ) (inner : Inner) (n : Node) (w : World)
        (level : ℕ) → node_at w.nodes i ≡ Some n →
        bytes_used (apply (Relabel i label inner) w).nodes level + label_share n level
        ≡ bytes_used w.nodes level + label_share (record n { label = label; inner = inner }) level }
    // Names, opens, clients, sessions and contexts count nothing.
    ensures others { (c : Change) (w : World) → leaves_nodes c ≡ true →
        (apply c w).nodes ≡ w.nodes }
{}

/// Totals stay those of a world's nodes where each change goes with its call.
pub fn law_totals()
    // To begin with: no nodes, and then one after the other, none of which has bytes.
    ensures none { AreTotals (replicate MAX_LEVELS unused) [] }
    ensures next { (rows : List Row) (nodes : List Node) (n : Node) → AreTotals rows nodes →
        IsInBounds n → bytes_of n n.kind ≡ 0 →
        AreTotals (node_charged rows n.id.level) (nodes ++ n ∷ []) }
    // What is there is counted, and can be taken away.
    ensures held_bounds { (rows : List Row) (nodes : List Node) (i : Id) (n : Node) →
        AreTotals rows nodes →
        node_at nodes i ≡ Some n → IsInBounds n }
    ensures held_node { (rows : List Row) (nodes : List Node) (i : Id) (n : Node) →
        AreTotals rows nodes →
        node_at nodes i ≡ Some n → 0 < (row_at rows n.id.level).nodes }
    ensures held_bytes { (rows : List Row) (nodes : List Node) (i : Id) (n : Node) →
        AreTotals rows nodes →
        node_at nodes i ≡ Some n → bytes_of n n.kind ≤ (row_at rows n.label).bytes }
    // A directory, a link or an empty file is made.
    ensures made { (rows : List Row) (n : Node) (entry : Entry) (w : World) →
        AreTotals rows w.nodes →
        node_at w.nodes n.id ≡ None → IsInBounds n → bytes_of n n.kind ≡ 0 →
        AreTotals (node_charged rows n.id.level) (apply (Make n entry) w).nodes }
    // A node goes with its last name, and its bytes with it.
    ensures dropped { (rows : List Row) (entry : Entry) (n : Node) (w : World) →
        AreTotals rows w.nodes →
        Rising node_order w.nodes → node_at w.nodes entry.node ≡ Some n →
        AreTotals (resized (node_credited rows n.id.level) n.label (bytes_of n n.kind) 0)
        (apply (Drop entry) w).nodes }
    // Without bytes there is nothing to take away.
    ensures dropped_empty { (rows : List Row) (entry : Entry) (n : Node) (w : World) →
        AreTotals rows w.nodes →
        Rising node_order w.nodes → node_at w.nodes entry.node ≡ Some n → bytes_of n n.kind ≡ 0 →
        AreTotals (node_credited rows n.id.level) (apply (Drop entry) w).nodes }
    ensures touched { (rows : List Row) (i : Id) (inner : Inner) (n : Node) (w : World) →
        AreTotals rows w.nodes →
        node_at w.nodes i ≡ Some n → bytes_of (record n { inner = inner }) n.kind ≤ MOST_FILE →
        i.number ≤ LAST_NUMBER →
        AreTotals (resized rows n.label (bytes_of n n.kind)
        (bytes_of (record n { inner = inner }) n.kind))
        (apply (Touch i inner) w).nodes }
    // Nothing is to be done where the content keeps its length, or the node is no file.
    ensures touched_alike { (rows : List Row) (i : Id) (inner : Inner) (n : Node) (w : World) →
        AreTotals rows w.nodes →
        node_at w.nodes i ≡ Some n → bytes_of (record n { inner = inner }) n.kind
        ≡ bytes_of n n.kind →
        AreTotals rows (apply (Touch i inner) w).nodes }
    // The bytes go to the new label.
    ensures relabelled { (rows : List Row) (i : Id) (label : ℕ) (inner : Inner) (n : Node)
        (w : World) →
        AreTotals rows w.nodes → node_at w.nodes i ≡ Some n → label < MAX_LEVELS →
        bytes_of (record n { inner = inner }) n.kind ≡ bytes_of n n.kind →
        AreTotals (moved rows n.label label (bytes_of n n.kind))
        (apply (Relabel i label inner) w).nodes }
    ensures others { (rows : List Row) (c : Change) (w : World) → AreTotals rows w.nodes →
        leaves_nodes c ≡ true →
        AreTotals rows (apply c w).nodes }
{}

/// No total of bytes comes near the largest number. Files of 32 levels, of which each gives 4,294,967,295 numbers, are fewer
/// than 2 ^ 37, and each has at most 2 ^ 24 bytes.
pub fn law_fitting()
    // The bytes of one more file can be counted.
    ensures { (rows : List Row) (nodes : List Node) (level : ℕ) → AreTotals rows nodes →
        Rising node_order nodes →
        (row_at rows level).bytes + MOST_FILE < 2 ^ 64 }
{}
