//! Laws of paths in a tree (`mini_model/specs/Paths.antt`): what a path leads to, and what is found
//! where a node was replaced.
ghost use Rattle.mini_laws.specs.Finding.{NodeFound, FoundWhereReplaced, FoundFurther};
ghost use Rattle.mini_laws.specs.Preorder.{PathsFound, PathsOnce};
ghost use Rattle.mini_laws.specs.Replacing.{PutFound, PutBack, PutTwice, PutSame, PutBelow, PutAbove, PutElsewhere, HeadKept, RootKept, StillLeads, PutFurther, PutCounted};

/// Below the root a path leads to nodes of ESTree, and leads somewhere just where a node can be
/// replaced; and a path after another leads on from the node of that.
pub fn found()
    ensures node { NodeFound }
    ensures replaced { FoundWhereReplaced }
    ensures further { FoundFurther }
{}

/// What was put at a path is found there, and what stood there put back gives the tree back.
pub fn put_at_a_path()
    ensures found { PutFound }
    ensures back { PutBack }
    ensures twice { PutTwice }
    ensures same { PutSame }
{}

/// Below the path there is what was put there; above it, what was there with its part replaced;
/// elsewhere, what was there.
pub fn put_near_a_path()
    ensures below { PutBelow }
    ensures above { PutAbove }
    ensures elsewhere { PutElsewhere }
{}

/// Each node that is neither at the path nor below it keeps its shape, its names and its number, as
/// the root does, and each path to elsewhere leads somewhere just where it did before.
pub fn heads_are_kept()
    ensures all { HeadKept }
    ensures root { RootKept }
    ensures leads { StillLeads }
{}

/// A node is replaced at a path after another by replacing what the first leads to.
pub fn put_further()
    ensures { PutFurther }
{}

/// Where a node is replaced, there are as many nodes fewer as it had, and as many more as what was
/// put has.
pub fn put_is_counted()
    ensures { PutCounted }
{}

/// The paths of all nodes are those that lead somewhere, each once, and lead to the nodes in
/// preorder.
pub fn paths_of_all_nodes()
    ensures found { PathsFound }
    ensures once { PathsOnce }
{}
