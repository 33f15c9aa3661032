//! Laws of the definitions.

ghost use Rattle.std.specs.Prelude.{◌≡◌, ◌⊎◌, ◌↔◌, ◌∷◌, ◌+◌, ◌≤◌, ℕ, length, List, [], Bool, true, None, Some, Option, Ok, Err, if◌then◌else◌};
ghost use Rattle.ng_values.specs.declared.value.Value.{Value};
ghost use Rattle.ng_values.specs.declared.fault.Fault.{Fault};
ghost use Rattle.ng_ast.specs.declared.App.{App};
ghost use Rattle.ng_ast.specs.declared.Expr.{Expr, out-Expr};
ghost use Rattle.ng_ast.specs.declared.Flag.{Flag};
ghost use Rattle.ng_ast.specs.declared.OutletForm.{OutletForm, out-OutletForm};
ghost use Rattle.ng_ast.specs.declared.Stmt.{Stmt, out-Stmt, size-Stmt};
ghost use Rattle.ng_ast.specs.declared.TNode.{TNode, out-TNode};
ghost use Rattle.ng_tree.specs.declared.Item.{Item};
ghost use Rattle.ng_tree.specs.declared.NodeId.{NodeId};
ghost use Rattle.ng_tree.specs.declared.NodeId.TheVariants as id;
ghost use Rattle.ng_tree.specs.declared.PNode.{PNode, out-PNode};
ghost use Rattle.ng_tree.specs.declared.Site.{Site};
ghost use Rattle.ng_turns.specs.declared.Event.{Event};
ghost use Rattle.ng_turns.specs.declared.Event.TheVariants as event;
ghost use Rattle.ng_meaning.specs.Steps.{pure};
ghost use Rattle.ng_meaning.specs.Levels.{whole};
ghost use Rattle.ng_meaning.specs.Lists.{Text};
ghost use Rattle.ng_meaning.specs.World.{World, Read, held, is_live};
ghost use Rattle.ng_meaning.specs.Expressions.{Bodies, mean_chain, mean_level, most_calls};
ghost use Rattle.ng_meaning.specs.Template.{Node, nodes_of, form_from, form_layer};
ghost use Rattle.ng_meaning.specs.Places.{Trail, Outline, Outlines, outlines};
ghost use Rattle.ng_meaning.specs.Declared.{root};
ghost use Rattle.ng_meaning.specs.Init.{init_layer};
ghost use Rattle.ng_meaning.specs.Injection.{upwards, environments_from, route, first_fit, give, search, provided, resolved};
ghost use Rattle.ng_meaning.specs.Tree.{Marks, Tree, State};
ghost use Rattle.ng_meaning.specs.Bindings.{outlet_layer, outlet_shown};
ghost use Rattle.ng_meaning.specs.Passes.{lives, living, Passed, pass};
ghost use Rattle.ng_meaning.specs.Targets.{ways_layer, ways, Listener, event_way, way_listeners};
ghost use Rattle.ng_meaning.specs.Events.{Act, Doing, Runner, act_layer, act, in_turn, run_listener, runner, handled, idle, handle};
ghost use Rattle.ng_meaning.specs.Runs.{Turn, settled, run_from, run_with};
ghost use Rattle.ng_meaning.specs.Page.{page_nodes, outlet_views, draw, draw_root, page, outlets_met};
ghost use Rattle.ng_meaning.specs.Queries.{Live, live_within, all_live};
ghost use Rattle.ng_meaning.specs.Laws.Apart.{In, Apart};
ghost use Rattle.ng_meaning.specs.Laws.Growing.{paths, IsInOrder, ViewsCounted};
ghost use Rattle.ng_meaning.specs.Laws.Pages.{node_ids};
ghost use Rattle.ng_meaning.specs.Laws.OnPage.{IsOnPage};
ghost use Rattle.ng_meaning.specs.Laws.Units.{IsShown, ShowsSlotsOnce};
ghost use Rattle.ng_meaning.specs.Laws.Live.{IsElement, IsLive};
ghost use Rattle.ng_meaning.specs.Laws.Slots.{TemplatesHaveSlotsOnce};
ghost use Rattle.ng_meaning.specs.Laws.Holding.{AllAct, each_flushed, ShowSame};
ghost use Rattle.ng_meaning.specs.Printing.{escaped, escaped_value, html_layer, html};

/// Two different texts, or two different values of attributes, are never printed alike.
pub fn printing_tells_texts_apart()
    ensures texts { (s t : Text) → escaped s ≡ escaped t → s ≡ t }
    ensures values { (s t : Text) → escaped_value s ≡ escaped_value t → s ≡ t }
{}

/// What a token gives depends on the application and on where it is asked for, and not on what is
/// live: `provided`, which knows nothing of what is held, has the answer, and its fault comes at once.
pub fn injection_goes_by_place()
    ensures given { (app : App) (from : Option Site) (token : Text) (flags : List Flag) (world : World) (i : Item)
        → (resolved app from token flags world).0 ≡ Ok i → provided app from token flags ≡ Ok i }
    ensures refused { (app : App) (from : Option Site) (token : Text) (flags : List Flag) (world : World) (f : Fault)
        → provided app from token flags ≡ Err f → resolved app from token flags world ≡ (Err f, world) }
{}

/// A search for a token is one step over the searches for what the step found: however far they go, none is cut off.
pub fn searches_go_to_their_end()
    ensures steps { (app : App) (making : List Site) (from : Option Site) (token : Text) (flags : List Flag)
        → search app making from token flags ≡ give app (search app) token flags making (first_fit app token flags (route app from)) }
    ensures environments { (app : App) (name : Text) (n : ℕ) → In root (upwards app n name) → upwards app n name ≡ environments_from app name }
{}

/// A pass keeps exactly the sites that live on: what is held of them stays, and of all others nothing.
pub fn live_sites_are_kept()
    ensures exactly { (instances : List (Trail × List Read)) (world : World) (at : Site)
        → held (living instances world) at ≡ (if lives instances at then held world at else None) }
    ensures after_pass { (app : App) (every : Bool) (marks : Marks) (z : State) (p : Passed) (at : Site)
        → pass app every marks z ≡ Ok p → is_live p.state.world at ≡ true → lives p.state.tree.instances at ≡ true }
{}

/// In the tree that a pass leaves no path stands twice, and each view stands behind the one that it is in.
/// The tree that the pass began with has its rows counted, as every tree has that a pass left.
pub fn paths_are_in_order()
    ensures in_passes { (app : App) (every : Bool) (marks : Marks) (z : State) (p : Passed)
        → ViewsCounted z.tree.views → pass app every marks z ≡ Ok p → IsInOrder p.state.tree.views × ViewsCounted p.state.tree.views }
    ensures in_runs { (app : App) (every : Bool) (events : List Event) (t : Turn)
        → In t (run_with app every events).turns → IsInOrder t.state.tree.views }
{}

/// Each view that a tree shows was visited by the pass that left it, and has at most 63 steps. So a page, for which
/// no longer paths are drawn, misses none.
pub fn shown_views_are_live()
    ensures { (app : App) (every : Bool) (marks : Marks) (z : State) (r : Passed) → pass app every marks z ≡ Ok r
        → (p : Trail) (o : Outline) (outer : Outlines) → IsShown app r.state.tree p → outlines app p ≡ o ∷ outer
        → In p (paths r.state.tree.views) × (length p ≤ 63) }
{}

/// Each view that is live in the tree of a pass is one that the tree shows: it has no others. The tree that the pass
/// began with has its rows counted, as every tree has that a pass left.
pub fn live_views_are_shown()
    ensures { (app : App) (every : Bool) (marks : Marks) (z : State) (r : Passed) → ViewsCounted z.tree.views → pass app every marks z ≡ Ok r
        → (p : Trail) → In p (paths r.state.tree.views) → IsShown app r.state.tree p }
{}

/// The list of live nodes, in which queries search and which orders the report, has exactly the elements and hosts
/// that stand in the views that the tree shows, each with the elements and hosts of its template that it stands in.
pub fn live_elements_are_listed()
    ensures in_passes { (app : App) (every : Bool) (marks : Marks) (z : State) (r : Passed) → ViewsCounted z.tree.views → pass app every marks z ≡ Ok r
        → (q : Live) → In q (all_live app r.state.tree) ↔ IsLive app r.state.tree q }
    ensures in_runs { (app : App) (every : Bool) (events : List Event) (t : Turn) → In t (run_with app every events).turns
        → (q : Live) → In q (all_live app t.state.tree) ↔ IsLive app t.state.tree q }
    ensures each_node { (app : App) (tree : Tree) (p : Trail) (o : Outline) (outer : Outlines) (n : Node) → IsShown app tree p → outlines app p ≡ o ∷ outer
        → In n (nodes_of o.nodes) → IsElement n.form → (q : Live) × IsLive app tree q × (q.view ≡ p) × (q.number ≡ n.number) × (q.form ≡ n.form) }
{}

/// After a pass a page, the outlets that are met in it and the list of live nodes are the same with any more levels than 64.
pub fn levels_are_enough()
    ensures drawn { (app : App) (every : Bool) (marks : Marks) (z : State) (r : Passed) → pass app every marks z ≡ Ok r
        → (more : ℕ) → draw app r.state.tree page_nodes (64 + more) (outlines app []) (λ k. []) ≡ draw_root app r.state.tree page_nodes }
    ensures met { (app : App) (every : Bool) (marks : Marks) (z : State) (r : Passed) → pass app every marks z ≡ Ok r
        → (more : ℕ) → draw app r.state.tree outlet_views (64 + more) (outlines app []) (λ k. []) ≡ outlets_met app r.state.tree }
    ensures listed { (app : App) (every : Bool) (marks : Marks) (z : State) (r : Passed) → ViewsCounted z.tree.views → pass app every marks z ≡ Ok r
        → (more : ℕ) → live_within app r.state.tree (64 + more) (outlines app []) [] ≡ all_live app r.state.tree }
{}

/// What is said of syntax trees and pages by their size is one level over what is said of what is inside: however
/// deep they are, nothing is cut off.
pub fn recursions_go_to_their_end()
    ensures expressions { (bodies : Bodies) (e : Expr) → mean_chain bodies e ≡ mean_level bodies (mean_chain bodies) (out-Expr e) }
    ensures statements { (app : App) (tree : Tree) (left : ℕ) (runner : Runner) (s : Stmt)
        → act app tree left runner s ≡ act_layer app tree left runner (act app tree left runner) (out-Stmt s) }
    ensures inits { (app : App) (at : Site) (s : Stmt)
        → whole out-Stmt size-Stmt (pure tt) (init_layer app at) s ≡ init_layer app at (whole out-Stmt size-Stmt (pure tt) (init_layer app at)) (out-Stmt s) }
    ensures templates { (app : App) (t : TNode) → form_from app t ≡ form_layer app (form_from app) (out-TNode t) }
    ensures outlets { (os : Outlines) (o : OutletForm) → outlet_shown os o ≡ outlet_layer os (outlet_shown os) (out-OutletForm o) }
    ensures ways { (p : PNode) → ways p ≡ ways_layer ways (out-PNode p) }
    ensures printing { (p : PNode) → html p ≡ html_layer html (out-PNode p) }
{}

/// No two `ng-content`s that are live show the same slot of one instance, and no page has a node twice, where this is
/// so of the templates: no `ng-content` stands in a `@for` or an `ng-template`, and two of one slot stand in different
/// branches of one `@if` or `@switch`.
pub fn slots_are_shown_once()
    ensures slots { (app : App) (tree : Tree) → TemplatesHaveSlotsOnce app → ShowsSlotsOnce app tree }
    ensures pages { (app : App) (every : Bool) (events : List Event) (t : Turn)
        → In t (run_with app every events).turns → TemplatesHaveSlotsOnce app → Apart (node_ids t.page) }
{}

/// A page has its root, and each element, host and text that is on it by what the views show, and no others.
/// No node stands twice, where no two `ng-content`s that are live show the same slot of one instance.
pub fn page_has_each_shown_node_once()
    ensures each { (app : App) (tree : Tree) (i : NodeId) → IsOnPage app tree i → In i (node_ids (page app tree)) }
    ensures others { (app : App) (tree : Tree) (i : NodeId) → In i (node_ids (page app tree)) → (i ≡ id.Root) ⊎ IsOnPage app tree i }
    ensures once { (app : App) (tree : Tree) → ViewsCounted tree.views → ShowsSlotsOnce app tree → Apart (node_ids (page app tree)) }
    ensures once_in_runs { (app : App) (every : Bool) (events : List Event) (t : Turn)
        → In t (run_with app every events).turns → ShowsSlotsOnce app t.state.tree → Apart (node_ids t.page) }
{}

/// The listeners of a way are started one after another: after a fault none is, and after one that ended the others are, unless
/// the event was stopped.
pub fn listeners_run_in_turn()
    ensures faulted { (run : Listener → Act (Unit {0})) (l : Listener) (ls : List Listener) (d : Doing) (f : Fault)
        → (run l d).0 ≡ Err f → in_turn run (l ∷ ls) d ≡ run l d }
    ensures ended { (run : Listener → Act (Unit {0})) (l : Listener) (ls : List Listener) (d : Doing)
        → (run l d).0 ≡ Ok tt → in_turn run (l ∷ ls) d ≡ (if (run l d).1.stopped then (Ok tt, (run l d).1) else in_turn run ls (run l d).1) }
{}

/// An event on whose way one listener hears it does what that listener does, as if the event didn't bubble.
pub fn one_listener_is_alone()
    ensures { (app : App) (z : State) (name tag : Text) (n : ℕ) (value : Value) (way : List NodeId) (l : Listener)
        → event_way (page app z.tree) tag n ≡ Some way → way_listeners app name way ≡ l ∷ []
        → handle app z (event.On name tag n value) ≡ handled z.world (run_listener app z.tree most_calls (runner app z.tree most_calls) value l (idle z.world)) }
{}

/// A run in which each event is held, and flushed right after it, shows at each `flush` what the run without holding shows: the
/// same instances are checked, and the same state and page are left, or the same fault ends it.
pub fn holding_each_event_changes_nothing()
    ensures { (app : App) (every : Bool) (es : List Event) (z : State) → AllAct es
        → ShowSame (run_from app every (each_flushed es) (settled z)) (run_from app every es (settled z)) }
{}
