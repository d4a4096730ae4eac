// The walk-throughs.
use crate::{Buttons, Panels};
use block::{Block, Code, Input, Kind, Mode, Settings, Setup, Times, Word};
use button::Button;
use catalogue::{Catalogue, Stop, StopSettings, StopState};
use group::Group;
use reset::{ButtonFields, ButtonState};
use std::test::Fail;

fn word(pin0: bool, pin1: bool, pin2: bool, pin3: bool) -> Word {
    Word {
        pin0,
        pin1,
        pin2,
        pin3,
    }
}

// An active step with all pins on.
fn clear(now: bool, before: bool, elapsed: u16) -> Input {
    Input {
        active: true,
        word: word(true, true, true, true),
        now,
        before,
        elapsed,
    }
}

// An active step with no pin on and the reset off.
fn stopped(before: bool) -> Input {
    Input {
        active: true,
        word: word(false, false, false, false),
        now: false,
        before,
        elapsed: 10,
    }
}

// From power-up to the end of one press: seen on once more after `held` milliseconds, and off after `rest` more.
fn pressed<B: Block>(block: B, held: u16, rest: u16) -> B {
    block
        .step(clear(false, true, 10))
        .step(clear(false, false, 10))
        .step(clear(false, false, 10))
        .step(clear(true, false, 10))
        .step(clear(true, true, held))
        .step(clear(false, true, rest))
}

// What an emergency stop is made from, under a press of 350 to 2,000 milliseconds.
fn estop(start: bool, auto: bool) -> Result<Setup, Fail> {
    let setup = Setup::new(Kind::Estop, start, auto, 350, 2000);
    Ok(setup.ok_or("an emergency stop has these settings")?)
}

fn gate(kind: Kind) -> Result<Setup, Fail> {
    let setup = Setup::new(kind, false, false, 350, 2000);
    Ok(setup.ok_or("a gate has these settings")?)
}

#[test]
fn limits_of_settings_and_times(rt: HostRuntime) {
    assert!(rt; Settings::new(Kind::Or, true, false).is_none());
    assert!(rt; Settings::new(Kind::And, false, true).is_none());
    assert!(rt; Settings::new(Kind::Estop, true, true).is_some());
    assert!(rt; Times::new(99, 2000).is_none());
    assert!(rt; Times::new(100, 100).is_some());
    assert!(rt; Times::new(100, 60001).is_none());
}

#[test]
fn gates_follow_their_pins(rt: HostRuntime) -> Result<(), Fail> {
    let and = Catalogue::make(gate(Kind::And)?);
    let or = Catalogue::make(gate(Kind::Or)?);
    assert!(rt; and.mode() == Mode::Idle);
    assert!(rt; and.step(clear(false, true, 10)).mode() == Mode::On);
    let one = Input {
        word: word(false, false, true, false),
        ..clear(false, false, 10)
    };
    assert!(rt; and.step(one).code() == Code::H8802);
    assert!(rt; or.step(one).code() == Code::H8000);
    assert!(rt; !or.step(one).requests_reset());
    Ok(())
}

#[test]
fn a_stop_starts_by_itself_only_where_set(rt: HostRuntime) -> Result<(), Fail> {
    let auto = Catalogue::make(estop(true, true)?);
    let auto = auto
        .step(clear(false, true, 10))
        .step(clear(true, false, 10));
    assert!(rt; auto.mode() == Mode::On);
    let auto = auto.step(stopped(true)).step(clear(true, false, 10));
    assert!(rt; auto.mode() == Mode::On);
    let held = Catalogue::make(estop(false, false)?);
    let held = held.step(clear(true, true, 10)).step(clear(true, true, 10));
    assert!(rt; held.code() == Code::HC001);
    Ok(())
}

#[test]
fn a_button_asks_for_a_whole_press(rt: HostRuntime) -> Result<(), Fail> {
    let stop = Buttons::make(estop(false, false)?);
    let waiting = stop
        .step(clear(false, true, 10))
        .step(clear(false, false, 10));
    assert!(rt; waiting.mode() == Mode::Waiting);
    assert!(rt; waiting.code() == Code::H0000);
    assert!(rt; waiting.requests_reset());
    assert!(rt; pressed(stop, 100, 249).code() == Code::HC3F0);
    assert!(rt; pressed(stop, 100, 249).mode() == Mode::Fault);
    assert!(rt; pressed(stop, 100, 249).requests_reset());
    assert!(rt; pressed(stop, 100, 250).mode() == Mode::On);
    assert!(rt; pressed(stop, 1000, 1000).mode() == Mode::On);
    assert!(rt; pressed(stop, 1000, 1001).code() == Code::HC3E0);
    Ok(())
}

#[test]
fn a_group_turns_the_word_for_its_second(rt: HostRuntime) -> Result<(), Fail> {
    let panel = Panels::make(estop(false, false)?);
    assert!(rt; panel.is_clear(word(true, false, true, false)));
    assert!(rt; !panel.is_clear(word(true, true, false, true)));
    let on = pressed(panel, 200, 200);
    assert!(rt; on.mode() == Mode::On);
    let second_off = Input {
        word: word(true, true, false, true),
        ..clear(false, false, 10)
    };
    let dropped = on.step(second_off);
    assert!(rt; dropped.mode() == Mode::Off);
    assert!(rt; dropped.code() == Code::H8804);
    Ok(())
}

#[test]
fn fields_outside_the_limits_are_read_as_one_button(rt: HostRuntime) {
    let damaged = Button {
        inner: Stop {
            settings: StopSettings::new(false, false),
            state: StopState::FirstReady,
        },
        button: ButtonFields {
            state: ButtonState::TooLong,
            time: 500,
            min: 0,
            max: 9,
        },
    };
    assert!(rt; damaged.code() == Code::H0000);
    assert!(rt; damaged.mode() == Mode::Waiting);
    assert!(rt; damaged.step(clear(false, false, 10)).code() == Code::H83E2);
}
