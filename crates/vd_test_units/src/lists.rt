//! Lists and boxes.

use std::alloc::{AllocError, Global};
use std::test::Fail;
use vd_base::{Boxed, Items};

/// A tree that reaches itself through both types.
#[cycle(tree)]
#[derive(PartialEq, Eq, Drop)]
enum Tree {
    Leaf(u32),
    Not(Boxed<Tree>),
    Row(Items<Branch>),
}

#[cycle(tree)]
#[derive(PartialEq, Eq, Drop)]
struct Branch {
    name: Items<u8>,
    tree: Tree,
}

/// A list of two, with one more at each end.
fn one_to_four(alloc: Global) -> Result<Items<u32>, AllocError> {
    let mut list = Items::from_slice(alloc, &[2u32, 3])?;
    list.push(4)?;
    list.put_first(1)?;
    Ok(list)
}

/// Sets the first item, and takes the second and the last out: what was taken.
fn change(list: &mut Items<u32>) -> (u32, Option<u32>) {
    if list.as_slice().len() < 2 {
        return (0, None);
    }
    list.set(0, 9);
    let second = list.remove(1);
    (second, list.pop())
}

/// The items of a vector, and behind them those of a list.
fn joined(alloc: Global, more: Items<u32>) -> Result<Items<u32>, AllocError> {
    let mut list = Items::from_vec([7u32, 8].to_vec(alloc)?);
    list.append(more)?;
    Ok(list)
}

fn last_of(list: &Items<u32>) -> u32 {
    let mut last = 0;
    for item in list {
        last = *item;
    }
    last
}

/// Lengthens a list by two, and cuts it to five.
fn lengthen(list: &mut Items<u32>) -> Result<(), AllocError> {
    list.extend_from_slice(&[5, 6])?;
    list.truncate(5);
    Ok(())
}

#[test]
fn lists_are_made_and_changed(rt: HostRuntime) -> Result<(), Fail> {
    let mut list = one_to_four(rt.alloc())?;
    assert_eq!(rt; list.as_slice(), [1, 2, 3, 4].as_slice());
    assert_eq!(rt; list.len(), 4);
    assert_eq!(rt; change(&mut list), (2, Some(4)));
    let mut more = joined(rt.alloc(), list)?;
    lengthen(&mut more)?;
    assert_eq!(rt; more.into_vec().as_slice(), [7, 8, 9, 3, 5].as_slice());
    Ok(())
}

#[test]
fn lists_are_copied(rt: HostRuntime) -> Result<(), Fail> {
    let list = Items::from_slice(rt.alloc(), &[7u32, 8, 9, 3])?;
    let copy = list.clone()?;
    assert!(rt; copy == list);
    assert_eq!(rt; last_of(&copy), 3);
    assert_eq!(rt; copy.as_vec().len(), 4);
    Ok(())
}

/// Names as lists of bytes.
fn names(alloc: Global) -> Result<Items<Items<u8>>, AllocError> {
    let mut names = Items::new(alloc);
    for name in [b"alice".as_slice(), b"bob".as_slice()] {
        names.push(Items::from_slice(alloc, name)?)?;
    }
    Ok(names)
}

#[test]
fn a_list_of_lists_is_copied(rt: HostRuntime) -> Result<(), Fail> {
    let names = names(rt.alloc())?;
    let copy = names.clone()?;
    assert!(rt; copy == names);
    assert_eq!(rt; copy.len(), 2);
    Ok(())
}

fn one_branch(alloc: Global) -> Result<Branch, AllocError> {
    let name = Items::from_slice(alloc, b"x")?;
    let leaf = Boxed::new(alloc, Tree::Leaf(5))?;
    Ok(Branch {
        name,
        tree: Tree::Not(leaf),
    })
}

/// A row of one branch.
fn row(alloc: Global) -> Result<Tree, AllocError> {
    let branches = vec![in alloc; one_branch(alloc)?]?;
    Ok(Tree::Row(Items::from_vec(branches)))
}

/// Whether a tree differs from an empty row, and does so in a box.
fn differs(alloc: Global, whole: Tree) -> Result<bool, AllocError> {
    let other = Tree::Row(Items::new(alloc));
    if whole == other {
        return Ok(false);
    }
    let held = Boxed::new(alloc, whole)?;
    let other = Boxed::new(alloc, other)?;
    Ok(held != other)
}

#[test]
fn trees_are_compared(rt: HostRuntime) -> Result<(), Fail> {
    assert!(rt; differs(rt.alloc(), row(rt.alloc())?)?);
    let tree = Boxed::new(rt.alloc(), row(rt.alloc())?)?.into_inner();
    assert!(rt; tree == tree);
    assert_eq!(rt; *Boxed::new(rt.alloc(), 5u32)?, 5);
    Ok(())
}
