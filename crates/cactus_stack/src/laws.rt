//! What the words of the cactus stack's contracts mean, as laws: calls that do nothing, with the law as their contract.
ghost use Rattle.std.specs.Prelude.{◌≡◌, ◌≢◌, ◌+◌, ◌<◌, ℕ, List, [], ◌∷◌, ◌++◌, length, map, Option, None, Some, Contains, AllPairs, sum_by, replicate};
ghost use Rattle.cactus_stack.specs.Nodes.{Nodes, Node, node_at, node_words, node_parent, with_node, with_node_words, without, padded, charge, charge_of, growth_charge, total_charge, free_segments, segment_count, IsSight, IsPath};

/// An entry that is put under one number leaves what stands under every other, and words that
/// change leave their node's parent.
pub fn nodes_are_apart()
    ensures others { (nodes : Nodes) (n m : ℕ) (entry : Option Node) → m ≢ n →
        node_at (with_node nodes n entry) m ≡ node_at nodes m }
    ensures there { (nodes : Nodes) (n : ℕ) (entry : Option Node) → n < segment_count nodes →
        node_at (with_node nodes n entry) n ≡ entry }
    ensures count { (nodes : Nodes) (n : ℕ) (entry : Option Node) →
        segment_count (with_node nodes n entry) ≡ segment_count nodes }
    ensures parent { (nodes : Nodes) (n : ℕ) (words : List ℕ) →
        node_parent (with_node_words nodes n words) n ≡ node_parent nodes n }
    ensures words { (nodes : Nodes) (n : ℕ) (words : List ℕ) → n < segment_count nodes →
        node_words (with_node_words nodes n words) n ≡ words }
{}

/// Putting an entry changes the total charge by the difference of its charge and that of the entry before; a new stack
/// has the total 0. Closing the nodes of a list, each once, lowers the total by all that they took.
pub fn charges_are_counted()
    ensures changed { (nodes : Nodes) (n : ℕ) (entry : Option Node) → n < segment_count nodes →
        total_charge (with_node nodes n entry) + charge_of (node_at nodes n) ≡ total_charge nodes + charge_of entry }
    ensures at_first { (count : ℕ) → total_charge (replicate count None) ≡ 0 }
    ensures closed { (nodes : Nodes) (numbers : List ℕ) → AllPairs ◌≢◌ numbers →
        total_charge (without nodes numbers) + sum_by (λ n. charge_of (node_at nodes n)) numbers ≡ total_charge nodes }
{}

/// A stack without the nodes of a list has none of these, and every other node as it was.
pub fn listed_nodes_are_gone()
    ensures gone { (nodes : Nodes) (numbers : List ℕ) (n : ℕ) → Contains numbers n → node_at (without nodes numbers) n ≡ None }
    ensures kept { (nodes : Nodes) (numbers : List ℕ) (n : ℕ) → ¬ Contains numbers n →
        node_at (without nodes numbers) n ≡ node_at nodes n }
{}

/// A node has one sight: the words along its path. What is done to a node that isn't on the path, as to a sibling,
/// changes nothing in it.
pub fn sights_follow_paths()
    ensures one { (nodes : Nodes) (node : Option ℕ) (these those : List (List ℕ)) →
        IsSight nodes node these → IsSight nodes node those → these ≡ those }
    ensures path { (nodes : Nodes) (node : Option ℕ) (numbers : List ℕ) →
        IsPath nodes node numbers → IsSight nodes node (map (node_words nodes) numbers) }
    ensures beside { (nodes : Nodes) (node : Option ℕ) (numbers : List ℕ) (levels : List (List ℕ)) (other : ℕ) (entry : Option Node) →
        IsPath nodes node numbers → ¬ Contains numbers other → IsSight nodes node levels → IsSight (with_node nodes other entry) node levels }
{}

/// How many segments of 16 words some numbers of words take: examples.
pub fn worked_charges()
    ensures one { charge 1 ≡ 1 }
    ensures sixteen { charge 16 ≡ 1 }
    ensures seventeen { charge 17 ≡ 2 }
    ensures twenty { charge 20 ≡ 2 }
    ensures most { charge 128 ≡ 8 }
    ensures inside { growth_charge 20 12 ≡ 0 }
    ensures across { growth_charge 16 1 ≡ 1 }
{}

/// Of four segments a root of 20 words takes two and its child of 17 words two. The child sees its own words and the
/// root's, and not those of its sibling. With the child closed, two are free.
pub fn worked_tree()
    ensures root { free_segments (with_node (replicate 4 None) 3 (Some (record { parent = None; words = padded (1 ∷ 2 ∷ []) 20 }))) ≡ 2 }
    ensures given_then_zeros { padded (1 ∷ 2 ∷ []) 5 ≡ 1 ∷ 2 ∷ 0 ∷ 0 ∷ 0 ∷ [] }
    ensures child { free_segments (None ∷ Some (record { parent = Some 3; words = replicate 16 7 ++ 9 ∷ [] }) ∷ None ∷
        Some (record { parent = None; words = replicate 20 1 }) ∷ []) ≡ 0 }
    ensures sight { IsSight (Some (record { parent = Some 3; words = 5 ∷ [] }) ∷ Some (record { parent = Some 3; words = 9 ∷ [] }) ∷ None ∷
        Some (record { parent = None; words = 1 ∷ 2 ∷ [] }) ∷ []) (Some 1) ((9 ∷ []) ∷ (1 ∷ 2 ∷ []) ∷ []) }
    ensures closed { free_segments (without (None ∷ Some (record { parent = Some 3; words = replicate 17 7 }) ∷ None ∷
        Some (record { parent = None; words = replicate 20 1 }) ∷ []) (1 ∷ [])) ≡ 2 }
    ensures both_closed { without (None ∷ Some (record { parent = Some 3; words = 9 ∷ [] }) ∷ None ∷
        Some (record { parent = None; words = 1 ∷ [] }) ∷ []) (3 ∷ 1 ∷ []) ≡ replicate 4 None }
    ensures none_closed { without (Some (record { parent = None; words = 1 ∷ [] }) ∷ []) [] ≡ Some (record { parent = None; words = 1 ∷ [] }) ∷ [] }
{}
