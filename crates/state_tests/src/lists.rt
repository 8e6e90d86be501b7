//! A list of numbers in an order.
use sorted_list::{SortedList, Walk};
use std::alloc::Global;
use std::test::Fail;

// So many numbers, more than some chunks hold.
const COUNT: u32 = 1000;

// The numbers below COUNT in an order that jumps.
fn jumping(i: u32) -> u32 {
    i.wrapping_mul(379) % COUNT
}

fn put(list: &mut SortedList<u32>, number: u32) -> Result<(), Fail> {
    list.reserve(1)?;
    list.put(number, |a, b| a.cmp(b));
    Ok(())
}

fn filled(alloc: Global) -> Result<SortedList<u32>, Fail> {
    let mut list = SortedList::new(alloc);
    for i in 0..COUNT {
        put(&mut list, jumping(i))?;
    }
    Ok(list)
}

// How many numbers the walk gives, where each is this much more than the one before it.
fn steps(walk: Walk<'_, u32>, first: u32, step: u32) -> Option<u32> {
    let mut next = first;
    let mut count = 0u32;
    for number in walk {
        if *number != next {
            return None;
        }
        next = next.wrapping_add(step);
        count = count.wrapping_add(1);
    }
    Some(count)
}

#[test]
fn what_is_put_in_any_order_is_walked_in_order(rt: HostRuntime) -> Result<(), Fail> {
    let list = filled(rt.alloc())?;
    assert_eq!(rt; steps(list.walk(), 0, 1), Some(1000));
    assert_eq!(rt;
        steps(list.walk_from(|number| number.cmp(&400)), 400, 1),
        Some(600)
    );
    assert_eq!(rt; list.find(|number| number.cmp(&999)), Some(&999));
    assert_eq!(rt; list.find(|number| number.cmp(&1000)), None);
    Ok(())
}

#[test]
fn what_is_taken_out_is_gone(rt: HostRuntime) -> Result<(), Fail> {
    let mut list = filled(rt.alloc())?;
    for i in 0..500u32 {
        let odd = i * 2 + 1;
        assert_eq!(rt; list.remove(|number| number.cmp(&odd)), Some(odd));
    }
    assert_eq!(rt; list.remove(|number| number.cmp(&1)), None);
    assert_eq!(rt; steps(list.walk(), 0, 2), Some(500));
    Ok(())
}

#[test]
fn what_is_pushed_stands_last(rt: HostRuntime) -> Result<(), Fail> {
    let mut list = SortedList::new(rt.alloc());
    for number in 0..COUNT {
        list.reserve_end(1)?;
        list.push(number);
    }
    list.set(7, |number| number.cmp(&7));
    assert_eq!(rt; steps(list.walk(), 0, 1), Some(1000));
    assert_eq!(rt; steps(Walk::none(), 0, 1), Some(0));
    Ok(())
}

#[test]
fn room_is_made_and_given_up(rt: HostRuntime) -> Result<(), Fail> {
    let mut list = filled(rt.alloc())?;
    list.reserve(1000)?;
    list.reserve_end(1000)?;
    assert_eq!(rt; (list.room(), list.end_room()), (1000, 1000));
    list.push(COUNT);
    assert_eq!(rt; list.end_room(), 999);
    list.give_up_room();
    assert_eq!(rt; (list.room(), list.end_room()), (0, 0));
    assert_eq!(rt; steps(list.walk(), 0, 1), Some(1001));
    Ok(())
}

#[test]
fn what_is_there_is_not_put_again(rt: HostRuntime) -> Result<(), Fail> {
    let mut list = filled(rt.alloc())?;
    list.reserve(2)?;
    assert_eq!(rt;
        list.put_new(400, |a, b| a.cmp(b), |number| *number),
        Some(400)
    );
    assert_eq!(rt;
        list.put_new(COUNT, |a, b| a.cmp(b), |number| *number),
        None
    );
    assert_eq!(rt; steps(list.walk(), 0, 1), Some(1001));
    Ok(())
}

#[test]
fn what_is_replaced_keeps_its_place(rt: HostRuntime) -> Result<(), Fail> {
    let mut list = SortedList::new(rt.alloc());
    for i in 0..COUNT {
        list.reserve_end(1)?;
        list.push(i * 2);
    }
    for i in 0..COUNT {
        let rank = usize::try_from(i + i % 3).unwrap_or(0);
        list.set_near(rank, i * 2 + 1, |number| (number / 2).cmp(&i));
    }
    assert_eq!(rt; steps(list.walk(), 1, 2), Some(1000));
    Ok(())
}
