// Desks with damage: to a record of the run's own, to the first record of the table, and to the run beside its records.
use super::told::Desk;
use limits::MOST_STEPS;

// A record that keeps no version is damaged.
pub fn own_record(desk: &Desk) -> Desk {
    let mut broken = *desk;
    broken.run.cabinets[0].kept = 0;
    broken
}

pub fn lent_record(desk: &Desk) -> Desk {
    let mut broken = *desk;
    broken.table[0].kept = 0;
    broken
}

// A run that says it accepted more steps than it may is damaged.
pub fn step_count(desk: &Desk) -> Desk {
    let mut broken = *desk;
    broken.run.steps = MOST_STEPS + 1;
    broken
}
