use lk_io::{Clock, FIRST_MOMENT, LAST_MOMENT, MemClock, RealClock};
use lk_val::Items;
use std::test::Fail;

// 2026-01-01 00:00:00 UTC.
const YEAR_2026: i64 = 1_767_225_600;

#[test]
fn tells_its_moments_and_repeats_the_last(rt: HostRuntime) -> Result<(), Fail> {
    let mut moments = Items::from_vec(vec![in rt.alloc(); i64::MIN]?);
    moments.push(5).or(Err("memory"))?;
    moments.push(i64::MAX).or(Err("memory"))?;
    let mut clock = MemClock::new(moments);
    assert_eq!(rt; clock.now(), FIRST_MOMENT);
    let mut twin = clock.twin(rt.alloc()).or(Err("memory"))?;
    for moment in [5, LAST_MOMENT, LAST_MOMENT] {
        assert_eq!(rt; clock.now(), moment);
        assert_eq!(rt; twin.now(), moment);
    }
    Ok(())
}

#[test]
fn tells_the_time_of_the_system(rt: HostRuntime) -> Result<(), Fail> {
    let mut clock = RealClock::new(rt.clone()?);
    let first = clock.now();
    assert!(rt; (YEAR_2026..=LAST_MOMENT).contains(&first), "{first}");
    let mut twin = clock.twin(rt.alloc()).or(Err("memory"))?;
    assert!(rt; (YEAR_2026..=LAST_MOMENT).contains(&twin.now()));
    Ok(())
}
