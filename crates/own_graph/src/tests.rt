ghost use Rattle.std.specs.Prelude.{◌≡◌, true, IfOk};
ghost use Rattle.own_leaves.specs.Bindings.{AreTyped};
ghost use Rattle.own_table.specs.Table.{IsTypeIn};

use super::*;
use own_table::{TypeInfo, TypeTable};
use own_tree::{
    Binding, Bytes, Graph, Maker, Mode, Op, OpKind, OpTree, Place, Row, Span, Ty, Typed,
};
use sqlite_items::{Boxed, Items};
use std::alloc::{AllocError, Global};
use std::process::Abort;
use std::test::*;

const AT: Span = Span { start: 0, end: 1 };

/// An op tree, as the table below writes it.
enum Tree<'t> {
    Op(OpKind, u32),
    Seq(&'t [Tree<'t>]),
    Either(&'t Tree<'t>, &'t Tree<'t>),
    Loop(&'t Tree<'t>),
    Scope(&'t [u32], &'t Tree<'t>),
    Break,
    Return,
}

use OpKind::{Assign, Consume, Make, Read};
use Tree::{Break, Either, Loop, Return, Scope, Seq};

fn op_of(alloc: Global, kind: OpKind, binding: u32) -> Op {
    Op {
        kind,
        place: Place {
            binding,
            fields: Row::new(alloc),
        },
        span: AT,
        node: 0,
    }
}

fn tree_of(alloc: Global, tree: &Tree<'_>) -> Result<OpTree, AllocError> {
    match tree {
        Tree::Op(kind, binding) => Ok(OpTree::Op(op_of(alloc, *kind, *binding))),
        Seq(parts) => {
            let mut items = Items::new(alloc);
            for part in *parts {
                items.push(tree_of(alloc, part)?)?;
            }
            Ok(OpTree::Seq(items))
        }
        Either(first, second) => Ok(OpTree::Either(
            Boxed::new(alloc, tree_of(alloc, *first)?)?,
            Boxed::new(alloc, tree_of(alloc, *second)?)?,
        )),
        Loop(turn) => Ok(OpTree::Loop(
            Boxed::new(alloc, tree_of(alloc, *turn)?)?,
            Boxed::new(alloc, OpTree::Seq(Items::new(alloc)))?,
        )),
        Scope(bindings, inner) => Ok(OpTree::Scope(
            Row::from_slice(alloc, *bindings)?,
            AT,
            Boxed::new(alloc, tree_of(alloc, *inner)?)?,
        )),
        Break => Ok(OpTree::Break(AT)),
        Return => Ok(OpTree::Return(AT)),
    }
}

const FILE: Ty = Ty::Named(0);

/// `let f = File(fd: 1); var i = 0; while i < 2 { take(f); i += 1 }`, and the return at the brace.
const TAKEN_IN_A_LOOP: Tree<'static> = Seq(&[
    Scope(
        &[0, 1],
        &Seq(&[
            Tree::Op(Make, 0),
            Tree::Op(Make, 1),
            Loop(&Seq(&[
                Tree::Op(Read, 1),
                Either(
                    &Seq(&[Tree::Op(Consume, 0), Tree::Op(Read, 1), Tree::Op(Assign, 1)]),
                    &Break,
                ),
            ])),
        ]),
    ),
    Return,
]);

/// For each node the nodes that may come next.
const NEXT: &[&[u32]] = &[
    &[],
    &[],
    &[1],
    &[2],
    &[9],
    &[4],
    &[5],
    &[6],
    &[7, 3],
    &[8],
    &[9],
    &[10],
    &[11],
];

/// The node, the leaf, and whether the leaf has a value then.
const MAKERS: &[(u32, u32, bool)] = &[
    (12, 0, false),
    (12, 1, false),
    (2, 0, false),
    (3, 1, false),
    (5, 1, true),
    (7, 0, false),
    (10, 1, true),
    (11, 0, true),
];

fn graph_in(alloc: Global) -> Result<Graph, AllocError> {
    let tree = tree_of(alloc, &TAKEN_IN_A_LOOP)?;
    graph(alloc, &tree)
}

#[test]
fn a_loop_leads_back(rt: HostRuntime) -> Result<(), Fail> {
    let graph = graph_in(rt.alloc())?;
    assert_eq!(rt; graph.entry, 12);
    assert_eq!(rt; graph.nodes.len(), NEXT.len());
    for (node, next) in graph.nodes.as_slice().iter().zip(NEXT) {
        assert!(rt; node.next.as_slice() == *next);
    }
    Ok(())
}

fn table_of(alloc: Global) -> Result<TypeTable, Fail> {
    let mut types = Row::new(alloc);
    types.push(TypeInfo {
        name: Bytes::from_slice(alloc, b"File")?,
        is_enum: false,
        noncopyable: true,
        has_deinit: true,
        fields: Row::new(alloc),
        cases: Row::new(alloc),
    })?;
    let table = TypeTable::from_types(alloc, types).ok().ok_or("no table")?;
    Ok(table)
}

fn is_type(table: &TypeTable, ty: Ty) -> bool
    ensures { result ≡ true → IsTypeIn table.now ty }
{
    match ty {
        Ty::Named(number) => number < table.count(),
        _ => true,
    }
}

/// The bindings of body 0, of these types.
fn bindings_of(
    rt: &impl Abort,
    alloc: Global,
    table: &TypeTable,
    types: &[Ty],
) -> Result<Vec<Binding>, AllocError>
    ensures { IfOk result (λ bindings. AreTyped table.now bindings.items) }
{
    let mut bindings = Vec::new(alloc);
    for ty in types {
        assert!(rt; is_type(table, *ty));
        bindings.push(Binding {
            name: Bytes::new(alloc),
            ty: *ty,
            mode: Mode::Let,
            span: AT,
            body: 0,
        })?;
    }
    Ok(bindings)
}

fn typed_of(
    rt: &impl Abort,
    alloc: Global,
    table: &TypeTable,
    types: &[Ty],
) -> Result<Typed, AllocError>
    ensures { IfOk result (λ typed. AreTyped table.now typed.bindings) }
{
    let bindings = bindings_of(rt, alloc, table, types)?;
    Ok(Typed {
        bodies: Row::new(alloc),
        bindings: Row::from_vec(bindings),
        signatures: Row::new(alloc),
        main: 0,
        tokens: 0,
    })
}

#[test]
fn makers_come_in_order_of_nodes(rt: HostRuntime) -> Result<(), Fail> {
    let alloc = rt.alloc();
    let table = table_of(alloc)?;
    let typed = typed_of(&rt, alloc, &table, &[FILE, Ty::Int])?;
    let graph = graph_in(alloc)?;
    let makers = makers(alloc, &graph, &typed, &table, 0)?;
    assert_eq!(rt; makers.leaves.len(), 2);
    assert_eq!(rt; makers.pairs.len(), MAKERS.len());
    for (pair, (node, leaf, live)) in makers.pairs.as_slice().iter().zip(MAKERS) {
        assert!(rt; pair.node == *node && pair.leaf == *leaf && pair.live == *live);
    }
    Ok(())
}
