//! The figures of a store and of its rings in the text format of Prometheus.
ghost use Rattle.std.specs.Prelude.{◌≡◌, ◌++◌, IfOk, OnOk, string_bytes};
ghost use Rattle.std.specs.List.{flat_map};
ghost use Rattle.ring_metrics.specs.Metrics.{IsMetrics, device_metric, device_samples, figure_help};
ghost use Rattle.ring_metrics.specs.Metrics.{figure_metric, figure_name, figure_sample, figure_value};
ghost use Rattle.ring_metrics.specs.Metrics.{metric_head, metrics_text, plain_metric, state_sample};
ghost use Rattle.ring_metrics.specs.Metrics.{store_metrics, told_figures, value_text};

use crate::measures::{Measured, measured_rings};
use ring_model::Rings;
use ring_tables::hundredths_text;
use ring_words::{Hour, MOST_VERSIONS};
use std::alloc::{AllocError, Global};

/// How much a store keeps.
#[derive(Clone, Copy)]
pub struct StoreFigures {
    /// How many numbers of callers are kept, each with its reply.
    pub kept: usize,
    /// How many numbers may be kept.
    pub limit: u32,
    /// The greatest hour that was decided at, in whole hours since 1970; 0 before the first.
    pub hour: Hour,
}

/// A figure of a ring that is told by itself.
#[derive(Clone, Copy)]
pub(crate) enum Figure {
    Version,
    Partitions,
    Replicas,
    Balance,
    Dispersion,
    /// How many partitions are locked.
    Locked,
    /// In how many hours none is any more.
    Rest,
    /// How many versions are published.
    Published,
    /// How many may be.
    PublishedLimit,
    /// How many seats are not where they are wanted.
    Misplaced,
}

/// What a figure is.
#[derive(Clone, Copy)]
pub(crate) enum FigureValue {
    /// As many.
    Number(u64),
    /// In hundredths of a percent.
    Percent(u32),
}

impl Figure {
    ghost use Rattle.std.specs.Prelude.{◌≡◌};
    ghost use Rattle.ring_metrics.specs.Metrics.{figure_help, figure_name};

    /// The name of its metric behind `ringd_`.
    fn name(self) -> &'static str
        ensures { result.now ≡ figure_name self }
    {
        match self {
            Figure::Version => "ring_version",
            Figure::Partitions => "ring_partitions",
            Figure::Replicas => "ring_replicas",
            Figure::Balance => "ring_balance_percent",
            Figure::Dispersion => "ring_dispersion_percent",
            Figure::Locked => "ring_locked_partitions",
            Figure::Rest => "ring_locked_hours",
            Figure::Published => "ring_published_versions",
            Figure::PublishedLimit => "ring_published_limit",
            Figure::Misplaced => "ring_misplaced_seats",
        }
    }

    /// What it is, in words.
    fn help(self) -> &'static str
        ensures { result.now ≡ figure_help self }
    {
        match self {
            Figure::Version => "Version of the ring.",
            Figure::Partitions => "Partitions of the ring.",
            Figure::Replicas => "Replicas of each partition.",
            Figure::Balance => "How far the worst device is from its share, in percent of it.",
            Figure::Dispersion => "Partitions that could stand farther apart, in percent of all.",
            Figure::Locked => "Partitions that a rebalance now would leave where they are.",
            Figure::Rest => "Hours until no partition is locked.",
            Figure::Published => "Published versions of the ring.",
            Figure::PublishedLimit => "Most versions that may be published.",
            Figure::Misplaced => "Seats that devices have above those that they want.",
        }
    }
}

/// What a figure is of a ring.
fn figure_value(what: Figure, measured: &Measured<'_>) -> FigureValue
    ensures { result ≡ figure_value what measured.now }
{
    match what {
        Figure::Version => FigureValue::Number(measured.version.into()),
        Figure::Partitions => FigureValue::Number(measured.partitions as u64),
        Figure::Replicas => FigureValue::Number(measured.replicas.into()),
        Figure::Balance => FigureValue::Percent(measured.balance),
        Figure::Dispersion => FigureValue::Percent(measured.dispersion),
        Figure::Locked => FigureValue::Number(measured.locked as u64),
        Figure::Rest => FigureValue::Number(measured.rest),
        Figure::Published => FigureValue::Number(measured.published as u64),
        Figure::PublishedLimit => FigureValue::Number(MOST_VERSIONS as u64),
        Figure::Misplaced => FigureValue::Number(measured.misplaced),
    }
}

/// A figure in digits.
fn value_text(alloc: Global, value: FigureValue) -> Result<String, AllocError>
    ensures { IfOk result (λ text. string_bytes text ≡ value_text value) }
{
    match value {
        FigureValue::Number(number) => format!(in alloc; "{number}"),
        FigureValue::Percent(hundredths) => hundredths_text(alloc, hundredths),
    }
}

/// What stands in front of a metric.
fn head_text(alloc: Global, name: &str, help: &str) -> Result<String, AllocError>
    ensures { IfOk result (λ text. string_bytes text ≡ metric_head name.now help.now) }
{
    format!(in alloc; "# HELP ringd_{name} {help}\n# TYPE ringd_{name} gauge\n")
}

/// A metric of one number.
fn plain_text(alloc: Global, name: &str, help: &str, value: u64) -> Result<String, AllocError>
    ensures { IfOk result (λ text. string_bytes text ≡ plain_metric name.now help.now value) }
{
    let head = head_text(alloc, name, help)?;
    format!(in alloc; "{head}ringd_{name} {value}\n")
}

/// The metrics of a store.
fn store_text(alloc: Global, store: &StoreFigures) -> Result<String, AllocError>
    ensures { IfOk result (λ text. string_bytes text ≡ store_metrics store.now) }
{
    let kept = plain_text(
        alloc,
        "numbers_kept",
        "Numbers of callers that are kept.",
        store.kept as u64,
    )?;
    let limit = plain_text(
        alloc,
        "numbers_limit",
        "Most numbers that may be kept.",
        store.limit.into(),
    )?;
    let hour = plain_text(
        alloc,
        "greatest_hour",
        "Greatest hour decided at, in hours since 1970.",
        store.hour.into(),
    )?;
    format!(in alloc; "{kept}{limit}{hour}")
}

/// A figure of a ring as a line.
fn sample_text(alloc: Global, what: Figure, measured: &Measured<'_>) -> Result<String, AllocError>
    ensures { IfOk result (λ text. string_bytes text ≡ figure_sample what measured.now) }
{
    let name = what.name();
    let ring = measured.name;
    let value = value_text(alloc, figure_value(what, measured))?;
    format!(in alloc; "ringd_{name}{{ring=\"{ring}\"}} {value}\n")
}

/// Adds a figure of a ring as a line.
fn push_sample(
    into: &mut String,
    alloc: Global,
    what: Figure,
    measured: &Measured<'_>,
) -> Result<(), AllocError>
    ensures { OnOk result (string_bytes into.new ≡ string_bytes into.old ++
        figure_sample what measured.now) }
{
    let sample = sample_text(alloc, what, measured)?;
    into.push_str(sample.as_str())
}

/// A figure of all rings, a line each.
fn samples_text(alloc: Global, what: Figure, all: &[Measured<'_>]) -> Result<String, AllocError>
    ensures { IfOk result (λ text. string_bytes text ≡ flat_map (figure_sample what) all.now) }
{
    let mut text = String::new(alloc);
    for measured in all {
        push_sample(&mut text, alloc, what, measured)?;
    }
    Ok(text)
}

/// A figure of all rings as a metric.
fn figure_text(alloc: Global, what: Figure, all: &[Measured<'_>]) -> Result<String, AllocError>
    ensures { IfOk result (λ text. string_bytes text ≡ figure_metric all.now what) }
{
    let head = head_text(alloc, what.name(), what.help())?;
    let samples = samples_text(alloc, what, all)?;
    format!(in alloc; "{head}{samples}")
}

/// Adds a figure of all rings as a metric.
fn push_figure(
    into: &mut String,
    alloc: Global,
    what: Figure,
    all: &[Measured<'_>],
) -> Result<(), AllocError>
    ensures { OnOk result (string_bytes into.new ≡ string_bytes into.old ++
        figure_metric all.now what) }
{
    let metric = figure_text(alloc, what, all)?;
    into.push_str(metric.as_str())
}

/// Some figures of all rings, a metric each.
fn figures_text(
    alloc: Global,
    figures: &[Figure],
    all: &[Measured<'_>],
) -> Result<String, AllocError>
    ensures { IfOk result (λ text. string_bytes text
        ≡ flat_map (figure_metric all.now) figures.now) }
{
    let mut text = String::new(alloc);
    for what in figures {
        push_figure(&mut text, alloc, *what, all)?;
    }
    Ok(text)
}

/// The figures of all rings that are told by themselves, a metric each.
fn told_text(alloc: Global, all: &[Measured<'_>]) -> Result<String, AllocError>
    ensures { IfOk result (λ text. string_bytes text
        ≡ flat_map (figure_metric all.now) told_figures) }
{
    figures_text(
        alloc,
        &[
            Figure::Version,
            Figure::Partitions,
            Figure::Replicas,
            Figure::Balance,
            Figure::Dispersion,
            Figure::Locked,
            Figure::Rest,
            Figure::Published,
            Figure::PublishedLimit,
            Figure::Misplaced,
        ],
        all,
    )
}

/// How many devices of a ring are in a state, as a line.
fn state_line(alloc: Global, ring: &str, state: &str, count: usize) -> Result<String, AllocError>
    ensures { IfOk result (λ text. string_bytes text ≡ state_sample ring.now state.now count) }
{
    format!(in alloc; "ringd_ring_devices{{ring=\"{ring}\",state=\"{state}\"}} {count}\n")
}

/// How many devices of a ring are in each state, a line each.
fn states_text(alloc: Global, measured: &Measured<'_>) -> Result<String, AllocError>
    ensures { IfOk result (λ text. string_bytes text ≡ device_samples measured.now) }
{
    let opened = state_line(alloc, measured.name, "open", measured.open_devices)?;
    let drained = state_line(alloc, measured.name, "drained", measured.drained_devices)?;
    let removed = state_line(alloc, measured.name, "removed", measured.removed_devices)?;
    format!(in alloc; "{opened}{drained}{removed}")
}

/// Adds how many devices of a ring are in each state, a line each.
fn push_states(into: &mut String, alloc: Global, measured: &Measured<'_>) -> Result<(), AllocError>
    ensures { OnOk result (string_bytes into.new ≡ string_bytes into.old ++
        device_samples measured.now) }
{
    let states = states_text(alloc, measured)?;
    into.push_str(states.as_str())
}

/// How many devices of all rings are in each state, a line each.
fn all_states_text(alloc: Global, all: &[Measured<'_>]) -> Result<String, AllocError>
    ensures { IfOk result (λ text. string_bytes text ≡ flat_map device_samples all.now) }
{
    let mut text = String::new(alloc);
    for measured in all {
        push_states(&mut text, alloc, measured)?;
    }
    Ok(text)
}

/// The devices of all rings as a metric.
fn devices_text(alloc: Global, all: &[Measured<'_>]) -> Result<String, AllocError>
    ensures { IfOk result (λ text. string_bytes text ≡ device_metric all.now) }
{
    let head = head_text(alloc, "ring_devices", "Devices of the ring by state.")?;
    let states = all_states_text(alloc, all)?;
    format!(in alloc; "{head}{states}")
}

/// All metrics of a store, where this is measured of its rings.
fn text_of(alloc: Global, store: &StoreFigures, all: &[Measured<'_>]) -> Result<String, AllocError>
    ensures { IfOk result (λ text. string_bytes text ≡ metrics_text store.now all.now) }
{
    let kept = store_text(alloc, store)?;
    let figures = told_text(alloc, all)?;
    let devices = devices_text(alloc, all)?;
    format!(in alloc; "{kept}{figures}{devices}")
}

/// The figures of a store, and of its rings at an hour, in the text format of Prometheus, each a
/// gauge with HELP and TYPE in front of it: how many numbers of callers are kept and may be, and the
/// greatest hour that was decided at, in whole hours since 1970; and of each ring, by rising name,
/// under the label `ring`: its version, partitions and replicas, its balance and dispersion in
/// percent with two digits after the point, how many partitions are locked at the hour and in how
/// many hours none is any more, how many versions are published and may be, how many seats are not
/// where they are wanted, and how many devices are in each state (the label `state`, as the device
/// table has it).
pub fn metrics_text(
    alloc: Global,
    store: &StoreFigures,
    rings: &Rings,
    hour: Hour,
) -> Result<String, AllocError>
    ensures { IfOk result (λ text. IsMetrics store.now rings.now hour (string_bytes text)) }
{
    let all = measured_rings(alloc, rings, hour)?;
    text_of(alloc, store, &all)
}
