//! The page that a browser shows of the rings.
#![tactic(auto)]

ghost use Rattle.std.specs.Prelude.{◌≡◌};

/// What `GET /v1/page` tells: one file of HTML, CSS and script, which needs nothing from elsewhere. Its
/// script reads the routes beside it and draws what they tell; it sends nothing that changes a ring.
///
/// It is a static: the prover would read a constant of some thousand letters wherever it is named.
pub static PAGE: &str = r##"<!doctype html>
<html lang="en">
<head>
<meta charset="utf-8">
<meta http-equiv="Content-Security-Policy" content="default-src 'none'; script-src 'sha256-IwcdGucT7CzL7FqgSAYzlVuPwU2eXm8/+N4Q6Zpct7g='; style-src 'sha256-NC6Vj9UkQl4KhErC89GsgxhL5yo6+JH8zJz8ENqj2xo='; img-src data:; connect-src 'self'; base-uri 'none'; form-action 'none'; require-trusted-types-for 'script'; trusted-types 'none'">
<meta name="viewport" content="width=device-width, initial-scale=1">
<title>Rings</title>
<link rel="icon" href="data:,">
<style>
:root {
  color-scheme: light dark;
  --page: #f3f5f7; --card: #fff; --text: #1a1f26; --soft: #56606b; --line: #d3d9e0; --track: #e8ecf1; --focus: #0b57d0;
  --has: #3a78bd; --over: #c2500f; --two: #f3c3a4; --gone: #6b7480; --gone-two: #c3cad2;
  --bad: #96180f; --bad-back: #fdeae8; --warn: #654a00; --warn-back: #fff4d1;
}
@media (prefers-color-scheme: dark) {
  :root {
    --page: #14171b; --card: #1d2127; --text: #e6eaef; --soft: #a6b0bb; --line: #383f49; --track: #2c323b; --focus: #8ab4f8;
    --has: #5c9de0; --over: #f39a58; --two: #6b3d1b; --gone: #98a2ae; --gone-two: #49515c;
    --bad: #ffb4ab; --bad-back: #431b18; --warn: #f3d98b; --warn-back: #3a2f10;
  }
}
* { box-sizing: border-box; }
body { margin: 0; background: var(--page); color: var(--text); font: 15px/1.45 system-ui, sans-serif; overflow-wrap: anywhere; }
h1, h2, p, dl, dd { margin: 0; }
h1, h2 { font-size: 1.2rem; }
h3 { font-size: 1rem; margin: 1rem 0 .5rem; }
a { color: inherit; }
:focus-visible { outline: 3px solid var(--focus); outline-offset: 2px; border-radius: 3px; }
main:focus, h2:focus { outline: none; }
[hidden] { display: none !important; }
#skip { position: absolute; left: -999px; }
#skip:focus { left: .5rem; top: .5rem; z-index: 2; background: var(--card); padding: .5rem 1rem; }
.soft { color: var(--soft); font-size: .85rem; }
header { background: var(--card); border-bottom: 1px solid var(--line); padding: .6rem 1rem; }
header > div, .asks, nav { display: flex; flex-wrap: wrap; gap: .5rem 1rem; align-items: center; }
header > div, main, #faults { max-width: 1680px; margin-inline: auto; }
main { padding: 0 1rem 2rem; }
label { display: inline-flex; gap: .4rem; align-items: center; max-width: 100%; overflow-wrap: normal; }
select, button, input {
  font: inherit; color: inherit; background: var(--card); border: 1px solid var(--soft); border-radius: 5px;
  padding: .25rem .6rem; min-height: 2.1rem; min-width: 0; max-width: 100%;
}
button { cursor: pointer; }
#ring { font-weight: 600; max-width: 15rem; }
#seed { width: 8.5rem; }
#faults { padding: 0 1rem; }
#faults p { margin-top: .75rem; padding: .6rem .9rem; border-radius: 6px; border-left: 5px solid; color: var(--warn); background: var(--warn-back); }
#faults .bad { color: var(--bad); background: var(--bad-back); }
.stale main { opacity: .6; }
section { background: var(--card); border: 1px solid var(--line); border-radius: 8px; padding: .9rem 1rem 1rem; margin-top: .9rem; min-width: 0; }
.tiles { display: grid; grid-template-columns: repeat(auto-fill, minmax(9.5rem, 1fr)); gap: .9rem 1.5rem; margin-top: .7rem; }
dt { color: var(--soft); font-size: .85rem; }
.big { font-size: 1.45rem; font-weight: 650; line-height: 1.25; }
.tiles .bar { margin: .3rem 0; }
.locks { max-width: 40rem; margin: .6rem 0 0; }
#locks-told:not(:empty) { margin-top: .9rem; }
.hours { display: flex; gap: 1px; align-items: flex-end; height: 3.5rem; border-bottom: 1px solid var(--soft); forced-color-adjust: none; }
.hours i { flex: 1; background: var(--has); min-height: 2px; }
.hours .none { background: none; }
figcaption { display: flex; justify-content: space-between; }
.asks { margin: .5rem 0 .7rem; }
.zones { display: grid; grid-template-columns: repeat(auto-fit, minmax(min(100%, 22rem), 1fr)); gap: .7rem 1.2rem; align-items: start; }
details, .tall { container-type: inline-size; }
summary { cursor: pointer; padding: .35rem .5rem; background: var(--track); border-radius: 5px; }
table { border-collapse: collapse; width: 100%; font-size: .9rem; line-height: 1.3; font-variant-numeric: tabular-nums; }
th, td { padding: .14rem .35rem; text-align: right; font-weight: 400; vertical-align: baseline; overflow-wrap: normal; white-space: nowrap; }
thead th { color: var(--soft); font-size: .8rem; border-bottom: 1px solid var(--line); }
.text { white-space: normal; overflow-wrap: anywhere; min-width: 4.6rem; }
th:first-child, td:first-child, .text { text-align: left; }
.server { border-top: 1px solid var(--line); color: var(--soft); padding-top: .3rem; }
.off { font-weight: 650; }
.room { width: 34%; min-width: 3.5rem; vertical-align: middle; }
.tag { border: 1px solid; border-radius: 4px; padding: 0 .3rem; font-size: .78rem; margin-left: .35rem; white-space: nowrap; }
.drained .tag { border-style: dashed; }
.removed .name { text-decoration: line-through; }
.bar { display: block; position: relative; height: .8rem; background: var(--track); border-radius: 2px; forced-color-adjust: none; }
.bar i { position: absolute; top: 0; bottom: 0; }
.fill, .takes { background: var(--has); }
.over, .gives { background: repeating-linear-gradient(45deg, var(--over) 0 4px, var(--two) 4px 7px); }
.miss { border: 1px dashed var(--over); }
.bar .mark { width: 2px; margin-left: -1px; top: -2px; bottom: -2px; background: var(--text); }
.removed .over { background: repeating-linear-gradient(90deg, var(--gone) 0 2px, var(--gone-two) 2px 5px); }
.drained .over { background: radial-gradient(var(--gone) 1.6px, var(--gone-two) 1.8px) 0 0 / 6px 6px; }
.key { display: flex; flex-wrap: wrap; gap: .2rem 1.1rem; margin: 0 0 .5rem; padding: 0; list-style: none; }
.key .bar { display: inline-block; width: 1.7rem; vertical-align: -1px; margin-right: .35rem; }
.key i { left: 0; width: 100%; }
.key .mark { left: 50%; }
.tall { max-height: 30rem; overflow: auto; margin: .6rem 0 .4rem; border-bottom: 1px solid var(--line); }
.tall thead th { position: sticky; top: 0; background: var(--card); z-index: 1; }
#log-told { margin-top: .9rem; }
#log td, #log th { text-align: left; padding-block: .3rem; }
#log tbody tr { border-top: 1px solid var(--line); }
#log .refused { color: var(--bad); font-weight: 650; }
@container (max-width: 34rem) {
  .wide { display: none; }
  .room { width: 24%; }
}
@media (min-width: 1000px) {
  .tiles { grid-template-columns: repeat(auto-fill, minmax(12.5rem, 1fr)); }
  .pair { display: grid; gap: 0 .9rem; grid-template-columns: 1fr 1fr; }
  nav { margin-left: auto; }
}
@media (max-width: 640px) {
  main { padding-inline: .6rem; }
  section { padding-inline: .7rem; }
  th, td { padding-inline: .25rem; }
  #log thead { position: absolute; left: -999px; }
  #log tr { display: flex; flex-wrap: wrap; gap: 0 .8rem; padding: .3rem 0; }
  #log td { padding: 0; }
  #log .full { flex-basis: 100%; }
  #log .rest { flex: 1 1 60%; }
}
</style>
</head>
<body>
<a id="skip" href="#main">Skip to the ring</a>
<header><div>
<h1>Rings</h1>
<label>Ring <select id="ring"></select></label>
<button id="refresh">Refresh</button>
<p id="read" class="soft"></p>
<nav aria-label="Parts of this page">
<a href="#devices">Devices</a>
<a href="#preview">Next rebalance</a>
<a href="#moves">Published versions</a>
<a href="#file">Last requests</a>
</nav>
</div></header>
<div id="faults" role="alert"></div>
<main id="main">
<noscript>This page needs JavaScript.</noscript>
<p id="ring-told"></p>
<div id="of-ring" hidden>
<section>
<h2 id="name"></h2>
<dl class="tiles" id="ring-rows"></dl>
<p id="locks-told"></p>
<div id="locks-rows"></div>
</section>
<section id="devices">
<h2>What each device wants and has</h2>
<div class="asks">
<label>Show <select id="which">
<option value="seats">all, most seats off first</option>
<option value="share">all, greatest part of the share off first</option>
<option value="id">all, by id</option>
<option value="closed">removed and drained ones</option>
</select></label>
<button id="fold">Close all zones</button>
</div>
<ul class="key soft">
<li><span class="bar"><i class="fill"></i></span>has</li>
<li><span class="bar"><i class="mark"></i></span>wants</li>
<li><span class="bar"><i class="over"></i></span>has too many</li>
<li><span class="bar"><i class="miss"></i></span>has too few</li>
<li class="removed"><span class="bar"><i class="over"></i></span>removed: leaves at the next rebalance</li>
<li class="drained"><span class="bar"><i class="over"></i></span>drained: weight 0, empties bit by bit</li>
</ul>
<p id="devices-told"></p>
<div id="devices-rows"></div>
</section>
<div class="pair">
<section id="preview">
<h2>What a rebalance now would move</h2>
<form class="asks" id="seeds">
<label>Seed <input id="seed" type="number" min="0" max="4294967295" value="1" required></label>
<button>Preview</button>
</form>
<p id="preview-told"></p>
<div id="preview-rows"></div>
</section>
<section id="moves">
<h2>Published versions, and moves between them</h2>
<div class="asks" id="pick">
<label>From version <select id="from"></select></label>
<label>to version <select id="to"></select></label>
</div>
<p id="published"></p>
<p id="moves-told"></p>
<div id="moves-rows"></div>
</section>
</div>
</div>
<section id="file" hidden>
<h2>The file and its last requests</h2>
<p id="file-told"></p>
<dl class="tiles" id="file-rows"></dl>
<p id="log-told"></p>
<div id="log-rows"></div>
</section>
</main>
<script>
"use strict";
// This page sends nothing but GET. Texts of answers go in as texts (append, textContent), never as HTML.

const LOG_ROWS = 20;
const MOST_BARS = 24, MOST_HOURS = 16384; // of locks: bars, and as many as a ring has partitions
const EVERY = 60, AFTER_FAULT = 10; // seconds until the page reads again, while it is visible
const PATIENCE = 30; // seconds for one answer: others may be served first
const NEAR = 0.9; // of the limit of numbers

const MEANS = new Map(Object.entries({
  NoRing: "no ring has this name",
  NoDevice: "the ring has no device of this number",
  TooFewDevices: "the ring has fewer devices with a weight above 0 than replicas",
  NoVersion: "this version of the ring is not published",
  NotMarked: "the device is not marked",
  OtherVersion: "the ring was changed since the preview",
  OtherHour: "the hour of the preview has passed",
  Unreadable: "a name or a number is not of its form",
  NoMemory: "the service found no memory. Give it more, or try again",
  StoreFault: "the store failed. Look at the disk, its free space and the messages of the service, which has to start again",
  Closed: "the store failed before, and the service was not started again since",
  NoRoute: "the service does not have this route: it may be older than the page",
  403: "this login may not read it",
  502: "a proxy got no whole answer from the service",
  504: "a proxy got no answer from the service in time",
  NotAllowed: "open the page at 127.0.0.1, or start the service with --host and this name",
}));

const at = (id) => document.getElementById(id);
const on = (id, event, what) => at(id).addEventListener(event, what);

/** A text with values in it: ? stands for one that is not known. */
const say = (texts, ...values) => String.raw({ raw: texts }, ...values.map((value) => value ?? "?"));
const count = (number, one) => say`${number} ${one}${number === 1 ? "" : "s"}`;
const signed = (number) => (number > 0 ? "+" : "") + number;

/** An element of these classes, with texts and elements in it. */
function make(tag, kind, ...inside) {
  const made = document.createElement(tag);
  made.className = kind;
  made.append(...inside.map((one) => one ?? "?"));
  return made;
}

/** A row of a table: each cell an element, or its classes and what is in it. */
const cells = (tag, ...all) => make("tr", "", ...all.map((one) => (one instanceof Node ? one : make(tag, ...one))));
const table = (heads, ...bodies) => make("table", "", make("thead", "", cells("th", ...heads)), ...bodies);

let odd = new Set(); // members of answers that were missing or not of their form

function member(of, key, isGood, otherwise) {
  const value = of?.[key];
  if (isGood(value)) return value;
  odd.add(key);
  return otherwise;
}

/** A text as it is shown: short, and ASCII as those of the service are. */
function shown(text) {
  const plain = text.slice(0, 64).replace(/[^\x20-\x7e]/g, "?");
  return text.length > 64 ? `${plain} .. (${text.length} characters)` : plain;
}

const isWhole = (value) => Number.isSafeInteger(value) && value >= 0;
const whole = (of, key) => member(of, key, isWhole, null);
const text = (of, key) => shown(member(of, key, (value) => typeof value === "string", "?"));
const list = (of, key, most = 2000) => member(of, key, Array.isArray, []).slice(0, most);
const wholes = (of, ...keys) => Object.fromEntries(keys.map((key) => [key, whole(of, key)]));

/**
 * Balance and dispersion come in hundredths of a percent, rounded down: 1234 is 12.34 %. A balance is 99999 at most, and
 * where a removed or drained device has a seat. A reply's and a preview's are those of the ring that the rebalance leaves.
 */
function percent(hundredths) {
  return hundredths === null ? "?" : `${Math.floor(hundredths / 100)}.${String(hundredths % 100).padStart(2, "0")} %`;
}

/** When an hour begins, in UTC. */
function date(hour) {
  if (hour === null || hour > 70000000) return "no date";
  return new Date(hour * 3600000).toISOString().slice(0, 16).replace("T", " ");
}

/** What is told in place of an answer. Where it stops, nothing more is read in this turn. */
const told = (sentence, stops) => Object.assign(new Error(sentence), { stops });

function refusal(path, status, body) {
  let answer = null;
  try {
    answer = JSON.parse(body);
  } catch {} // a proxy's own
  const name = String(answer?.refused ?? answer?.fault ?? "");
  const rule = answer?.rule === undefined ? "" : `(rule ${shown(String(answer.rule))})`;
  const means = MEANS.get(name) ?? MEANS.get(String(status)) ?? "this page does not know what that means";
  const words = [status, shown(name), rule].filter((word) => word).join(" ");
  return told(`The answer to ${path} was ${words}: ${means}.`, status >= 500 || status === 401 || status === 403);
}

let turn = 0; // each refresh is one; an older one shows nothing any more
let queue = Promise.resolve(); // one request at a time, since the service hears one connection at a time

async function ask(path, mine) {
  let answer, body;
  try {
    answer = await fetch(path, { cache: "no-store", signal: AbortSignal.timeout(PATIENCE * 1000) });
    body = await answer.text();
  } catch (error) {
    const late = `The service did not answer within ${PATIENCE} seconds. It may be busy, or hang.`;
    throw told(error.name === "TimeoutError" ? late : "The service does not answer. It may be stopped, or just starting.", true);
  }
  if (mine !== turn) throw told("", true);
  if (answer.status !== 200) throw refusal(path, answer.status, body);
  return body;
}

function read(path) {
  const mine = turn;
  const body = queue.then(() => ask(path, mine));
  queue = body.catch(() => {});
  return body;
}

/** What an answer tells: one JSON text, and the log one a line. */
function parse(path, body) {
  try {
    if (path.startsWith("log")) return body.split("\n").filter((line) => line).map((line) => JSON.parse(line));
    return JSON.parse(body);
  } catch {
    throw told(`The answer to ${path} is no JSON. Do the service and this page fit?`, false);
  }
}

const drawn = new Map(); // of what each part was drawn, and which members were odd

/** Draws a part, unless it was drawn of the same. */
function draw(part, from, drawing) {
  if (drawn.get(part)?.from === from) return;
  odd = new Set();
  drawn.set(part, { from, odd });
  drawing();
}

/** Reads a part and draws it. A refusal is told in its place. */
async function show(part, path, drawing) {
  try {
    const body = await read(path);
    draw(part, path + body, () => drawing(parse(path, body)));
    return true;
  } catch (error) {
    if (error.stops !== false) throw error;
    drawn.delete(part);
    at(part + "-told").textContent = error.message;
    at(part + "-rows").replaceChildren();
    return false;
  }
}

/** A bar of so much, with pieces: each its class, and from where to where it goes. */
function bar(most, ...pieces) {
  const track = make("span", "bar");
  for (const [kind, from, to] of pieces) {
    const piece = make("i", kind);
    piece.style.left = (100 * from) / most + "%";
    if (kind !== "mark") piece.style.width = (100 * (Math.min(to, most) - from)) / most + "%";
    if (kind === "mark" || to > from) track.append(piece);
  }
  return track;
}

function tile(name, value, ...more) {
  const lines = more.map((one) => (one instanceof Node ? one : make("div", "soft", one)));
  return make("div", "", make("dt", "", name), make("dd", "", make("div", "big", value), ...lines));
}

/* The ring */

let ring = null;
const closed = new Set(); // zones that the user closed

function takeDevice(of) {
  const device = wholes(of, "id", "region", "zone", "port", "wanted", "has");
  for (const key of ["address", "name", "state"]) device[key] = text(of, key);
  device.weight = member(of, "weight", (value) => /^\d{1,7}\.\d\d$/.test(value), "?");
  device.kind = ["removed", "drained"].includes(device.state) ? device.state : "";
  device.off = (device.has ?? 0) - (device.wanted ?? 0);
  return device;
}

function drawRing(of) {
  ring = wholes(of, "balance", "dispersion", "hour", "locked", "min_hours", "power", "replicas", "rests", "seats", "version");
  ring.name = text(of, "ring");
  ring.devices = list(of, "devices").map(takeDevice);
  ring.byId = new Map(ring.devices.map((device) => [device.id, device]));
  ring.published = list(of, "published").filter(isWhole);
  const partitions = ring.power === null ? null : 2 ** Math.min(ring.power, 32);
  const stray = ring.devices.some((device) => device.kind && device.has) && "a removed or drained device has seats";
  const worst = stray || (ring.balance === 99999 ? "or more" : "of its share: the worst device is that far off");
  const newest = Math.max(...ring.published);
  const kept = newest === ring.version ? "this version is published" : `not published; the newest that is: ${newest}`;
  at("name").textContent = ring.name;
  at("ring-rows").replaceChildren(
    tile("Balance", percent(ring.balance), worst),
    tile("Dispersion", percent(ring.dispersion), "of partitions could have replicas farther apart"),
    tile("Locked partitions", ring.locked, say`of ${partitions}`),
    tile("Hours until none is locked", ring.rests, say`of ${ring.min_hours} (min hours)`,
      ring.locked ? `until ${date(ring.hour + ring.rests)} UTC` : ""),
    tile("Seats on devices", ring.seats, ring.seats === 0 ? "the ring was never rebalanced" : "",
      say`${partitions} partitions (power ${ring.power}), ${count(ring.replicas, "replica")}`),
    tile("Version", ring.version, ring.published.length ? kept : "no version is published"),
  );
  drawDevices();
  drawn.delete("preview"); // these two tell the names of devices
  drawn.delete("moves");
}

/** A bar for each span of hours: how many partitions are free in it. The spans are as long as each other, and so many at most. */
function drawLocks(of) {
  const ends = list(of, "rests", MOST_HOURS).map((end) => wholes(end, "hours", "partitions")).filter((end) => end.hours && end.partitions);
  if (!ends.length) return leaveLocks();
  const last = ends.reduce((most, { hours }) => Math.max(most, hours), 0);
  const all = ends.reduce((sum, { partitions }) => sum + partitions, 0);
  const step = Math.ceil(last / MOST_BARS);
  const bars = new Array(Math.ceil(last / step)).fill(0);
  let half = null, sum = 0;
  for (const { hours, partitions } of ends) {
    bars[Math.ceil(hours / step) - 1] += partitions;
    sum += partitions;
    if (2 * sum >= all) half ??= hours;
  }
  const most = Math.max(...bars);
  const spans = bars.map((number, place) => `${count(number, "partition")} in ${step > 1 ? `${place * step + 1} to ` : ""}${count((place + 1) * step, "hour")}`);
  const row = make("div", "hours", ...bars.map((number, place) => {
    const piece = make("i", number ? "" : "none");
    piece.style.height = (100 * number) / most + "%";
    piece.title = spans[place];
    return piece;
  }));
  row.role = "img";
  row.ariaLabel = `Locked partitions that are free: ${spans.filter((_, place) => bars[place]).join(", ")}`;
  const ticks = make("figcaption", "soft", make("span", "", "now"), make("span", "", count(bars.length * step, "hour")));
  at("locks-rows").replaceChildren(make("figure", "locks", row, ticks));
  const [first, middle, end] = [ends[0].hours, half, last].map((each) => count(each, "hour"));
  const begin = first === end ? "" : `the first in ${first}, half in ${middle}, `;
  at("locks-told").textContent = `Locked partitions are free: ${begin}all in ${end}.`;
}

function leaveLocks() {
  at("locks-told").textContent = "";
  at("locks-rows").replaceChildren();
}

/** Things by a key, in the order of the first one of each. */
function groups(things, key) {
  const found = new Map();
  for (const thing of things) found.set(thing[key], [...(found.get(thing[key]) ?? []), thing]);
  return [...found];
}

function sums(devices) {
  const [wanted, has] = ["wanted", "has"].map((key) => devices.reduce((sum, device) => sum + device[key], 0));
  return `wants ${wanted}, has ${has} (${signed(has - wanted)})`;
}

const shareOff = (device) => Math.abs(device.off) / (device.wanted || 0.01);
const byId = (a, b) => a.id - b.id;
const bySeats = (a, b) => Math.abs(b.off) - Math.abs(a.off) || byId(a, b);
const ORDERS = { share: (a, b) => shareOff(b) - shareOff(a) || byId(a, b), id: byId };

function deviceName(device) {
  if (!device) return make("th", "text soft", "not in the ring now");
  const name = make("th", "text", make("span", "name", device.name));
  if (device.state !== "open") name.append(make("span", "tag", device.state.slice(0, 12)));
  return name;
}

function deviceRow(device, most) {
  const { id, port, weight, wanted, has, off } = device;
  const name = deviceName(device);
  name.append(make("span", "soft", say` :${port}`));
  const room = bar(most, ["fill", 0, Math.min(has, wanted)], ["over", wanted, has], ["miss", has, wanted], ["mark", wanted]);
  const row = cells("td", ["", id], name, ["wide", weight], ["", wanted], ["", has], ["off", signed(off)], ["room", room]);
  row.className = device.kind;
  return row;
}

function zoneBox(key, zone, devices, most) {
  const heads = [["", "Id"], ["text", "Device"], ["wide", "Weight"], ["", "Wants"], ["", "Has"], ["", "Off by"], ["room"]];
  const bodies = groups(devices, "address").map(([address, inside]) => {
    const server = cells("th", ["server text", `Server ${address}: ${sums(inside)}`]);
    server.firstChild.colSpan = 7;
    return make("tbody", "", server, ...inside.map((device) => deviceRow(device, most)));
  });
  const told = make("span", "soft", ` ${count(devices.length, "device")}, ${sums(devices)}`);
  const title = make("summary", "", make("strong", "", say`Zone ${zone}`), told);
  title.dataset.zone = key;
  const box = make("details", "", title, table(heads, ...bodies));
  box.open = !closed.has(key);
  box.addEventListener("toggle", () => {
    closed[box.open ? "delete" : "add"](key);
    nameFold();
  });
  return box;
}

const zones = () => [...at("devices-rows").querySelectorAll("details")];
const nameFold = () => (at("fold").textContent = zones().some((box) => box.open) ? "Close all zones" : "Open all zones");

function drawDevices() {
  const held = document.activeElement.dataset.zone;
  const which = at("which").value;
  const all = ring.devices;
  const some = all.filter((device) => which !== "closed" || device.state !== "open").sort(ORDERS[which] ?? bySeats);
  const most = Math.max(1, ...all.map((device) => Math.max(device.wanted, device.has)));
  const regions = groups(some, "region").map(([region, inside]) => {
    const boxes = groups(inside, "zone").map(([zone, devices]) => zoneBox([ring.name, region, zone].join(), zone, devices, most));
    const title = make("h3", "", say`Region ${region} `, make("span", "soft", sums(inside)));
    return make("div", "", title, make("div", "zones", ...boxes));
  });
  at("devices-rows").replaceChildren(...regions);
  const states = ["open", "drained", "removed"].map((state) => all.filter((device) => device.state === state).length + " " + state);
  const off = all.filter((device) => device.off).length;
  const told = `${count(all.length, "device")}: ${states.join(", ")}; ${off} with too many seats or too few.`;
  at("devices-told").textContent = all.length ? told : "The ring has no devices yet.";
  nameFold();
  if (held) zones().map((box) => box.firstChild).find((title) => title.dataset.zone === held)?.focus();
}

/* Seats that would move, and that moved */

/** What devices give and take, the most first. */
function drawChanges(where, devices, ...also) {
  const keys = also.map(([, key]) => key);
  const all = devices.map((of) => wholes(of, "id", "gives", "takes", ...keys));
  const busy = all.filter(({ gives, takes }) => gives || takes);
  busy.sort((a, b) => b.gives + b.takes - a.gives - a.takes || byId(a, b));
  const most = Math.max(1, ...busy.map(({ gives, takes }) => Math.max(gives, takes)));
  const named = also.map(([kind, , name]) => [kind, name]);
  const heads = [["", "Id"], ["text", "Device"], ["wide text", "Server"], ["", "Gives"], ["", "Takes"], ...named, ["room"]];
  const rows = busy.map((change) => {
    const { id, gives, takes } = change;
    const device = ring.byId.get(id);
    const room = bar(2 * most, ["gives", most - gives, most], ["takes", most, most + takes], ["mark", most]);
    const more = also.map(([kind, key]) => [kind, change[key]]);
    return cells("td", ["", id], deviceName(device), ["wide text", device?.address ?? ""], ["", gives], ["", takes], ...more, ["room", room]);
  });
  const box = make("div", "tall", table(heads, make("tbody", "", ...rows)));
  box.hidden = !rows.length;
  box.tabIndex = 0;
  box.role = "group";
  box.ariaLabel = "What devices give and take";
  const rest = make("p", "soft", `${all.length - busy.length} of ${count(all.length, "device")} neither give nor take.`);
  at(where).replaceChildren(box, rest);
}

const seats = (of) => count(whole(of, "changed"), "seat") + " in " + count(whole(of, "partitions"), "partition");

function drawPreview(of) {
  const { seed, version, locked, hour, balance, dispersion } = wholes(of, "seed", "version", "locked", "hour", "balance", "dispersion");
  at("preview-told").textContent = say`A rebalance with seed ${seed} would change ${seats(of)}, and leave version ${version} with balance ${
    percent(balance)} and dispersion ${percent(dispersion)}. Locked at hour ${hour}: ${count(locked, "partition")}.`;
  drawChanges("preview-rows", list(of, "devices"), ["wide", "has", "Has"], ["", "then", "Then"], ["", "wanted", "Wants"]);
}

let askedRing = "", picked = []; // the two versions of this ring that the user picked

/** Tells the published versions, and gives the two that are compared. */
function drawPublished() {
  const all = ring.published;
  const older = all.length > 12 ? `, and ${all.length - 12} older` : "";
  const told = `${count(all.length, "published version")}: ${all.slice(-12).reverse().join(", ")}${older}.`;
  at("published").textContent = all.length ? told : "No version is published yet.";
  at("pick").hidden = all.length < 2;
  if (all.length < 2) return null;
  const two = picked.length && picked.every((version) => all.includes(version)) ? picked : all.slice(-2);
  const choices = () => all.map((version) => new Option(version, version));
  draw("versions", all.join(), () => ["from", "to"].map((id) => at(id).replaceChildren(...choices())));
  [at("from").value, at("to").value] = two;
  return two;
}

function drawMoves(of) {
  at("moves-told").textContent = say`From version ${whole(of, "from")} to version ${whole(of, "to")}, ${seats(of)} changed.`;
  drawChanges("moves-rows", list(of, "devices"));
}

/* The file and its log */

let store = {};

function drawFile(of) {
  store = wholes(of, "hour", "kept", "limit", "rings");
  const { hour, kept, limit, rings } = store;
  at("file-told").textContent = "";
  at("file-rows").replaceChildren(
    tile("Numbers kept", kept, bar(limit || 1, ["fill", 0, kept]), say`of ${limit}`),
    tile("Hour", hour, date(hour) + " UTC"),
    tile("Rings", rings),
  );
}

/** The members of a message or a reply in words, but for those that stand elsewhere. */
function members(of, ...elsewhere) {
  if (of === null || typeof of !== "object") return "?";
  return Object.entries(of).filter(([key]) => !elsewhere.includes(key)).map(([key, value]) => {
    if (key === "balance" || key === "dispersion") return key + " " + percent(whole(of, key));
    if (Array.isArray(value)) return count(value.length, "row");
    return shown(key) + " " + (typeof value === "object" ? "?" : shown(String(value)));
  }).join(", ");
}

function logRow(of) {
  const { request, reply } = of ?? {};
  const name = reply?.refused ?? reply?.fault;
  const refused = name !== undefined;
  const means = MEANS.has(name) ? ": " + MEANS.get(name) : "";
  const asked = members(request, "caller", "number", "ring", "do");
  return cells(
    "td", ["", date(whole(of, "hour"))], ["text", text(request, "caller")], ["", whole(request, "number")], ["text", text(request, "ring")],
    ["text full", make("strong", "", text(request, "do")), asked && ": " + asked],
    [refused ? "refused" : "", say`${whole(of, "status")} ${refused ? "refused" : "done"}`],
    ["text rest", refused ? `${shown(String(name))} (${members(reply, "refused", "fault")})${means}` : members(reply, "done")],
  );
}

function drawLog(entries) {
  const rows = entries.slice(-LOG_ROWS).reverse().map(logRow);
  const last = `The last ${count(rows.length, "request")} that were decided, the newest first.`;
  at("log-told").textContent = rows.length ? last : "No request was decided yet.";
  const heads = ["Hour (UTC)", "Caller", "Number", "Ring", "What was asked", "Status", "Answer"].map((name) => ["", name]);
  const log = table(heads, make("tbody", "", ...rows));
  log.id = "log";
  // Narrow windows show rows as blocks; to who listens they stay rows.
  for (const [tag, role] of [["tr", "row"], ["th", "columnheader"], ["td", "cell"]]) log.querySelectorAll(tag).forEach((each) => (each.role = role));
  at("log-rows").replaceChildren(log);
}

/* One turn */

function drawNames(of) {
  const rings = list(of, "rings").map((each) => [text(each, "ring"), whole(each, "version")]);
  const name = new URLSearchParams(location.hash.slice(1)).get("ring") ?? rings[0]?.[0] ?? "";
  const choices = rings.map(([each, version]) => new Option(say`${each} (version ${version})`, each));
  if (!rings.some(([each]) => each === name)) choices.unshift(new Option(name ? shown(name) + " (no such ring)" : "none yet", name));
  at("ring").replaceChildren(...choices);
  at("ring").value = name;
  document.title = (name ? shown(name) + " - " : "") + "rings";
}

async function readAll() {
  await show("file", "status", drawFile);
  at("file").hidden = false;
  const names = await read("rings");
  draw("names", names + location.hash, () => drawNames(parse("rings", names)));
  await readRing(at("ring").value);
  // more than are shown, since some may have come meanwhile
  await show("log", `log?from=${Math.max(0, store.kept - LOG_ROWS)}&most=${5 * LOG_ROWS}`, drawLog);
}

async function readRing(name) {
  const isName = /^[a-z][a-z0-9-]{0,31}$/.test(name);
  at("ring-told").textContent = isName ? "" : name ? "No ring has this name." : "This file has no rings yet. The command create makes one.";
  const isThere = isName && (await show("ring", "rings/" + name, drawRing));
  at("of-ring").hidden = !isThere;
  if (!isThere) return;
  if (askedRing !== name) picked = [];
  askedRing = name;
  if (ring.locked === 0) draw("locks", "", leaveLocks);
  else await show("locks", `rings/${name}/locks`, drawLocks);
  await show("preview", `rings/${name}/preview?seed=${at("seed").value || 0}`, drawPreview);
  const two = drawPublished();
  if (two) await show("moves", `rings/${name}/moves?from=${two[0]}&to=${two[1]}`, drawMoves);
  else at("moves-told").textContent = at("moves-rows").textContent = "";
}

/** What is to be looked at though all was answered. */
function warnings() {
  const all = [];
  const { hour, kept, limit } = store;
  const full = `full: it keeps ${kept} of ${limit} numbers. "ringd renew" makes a new file.`;
  if (limit && kept >= limit) all.push(`The file is ${full} New requests are answered 507 BookFull, repeats and reads as before.`);
  else if (limit && kept >= NEAR * limit) all.push("The file is nearly " + full);
  const ahead = hour - Math.floor(Date.now() / 3600000);
  if (ahead > 24) all.push(`The hour of the service is ${ahead} hours ahead of this computer's clock. Locks that are made now end that much later.`);
  const wrong = [...drawn].filter(([, { odd }]) => odd.size).map(([part, { odd }]) => `${shown([...odd].join(", "))} (${part})`);
  if (wrong.length) all.push(`Some members of answers are missing or not of their form: ${wrong.join("; ")}. Do the service and this page fit?`);
  return all;
}

let timer = 0, isDue = false, lastRead = "";

async function refresh() {
  const mine = (turn += 1);
  clearTimeout(timer);
  isDue = false;
  at("read").textContent = "Reading ..";
  let fault = "";
  try {
    await readAll();
  } catch (error) {
    fault = "stops" in error ? error.message : "This page failed: " + error;
  }
  if (mine !== turn) return;
  const now = new Date().toTimeString().slice(0, 8);
  const told = warnings().map((one) => make("p", "", "Look: " + one));
  if (fault) told.unshift(make("p", "bad", `Fault: ${fault}${lastRead && ` What stands below was read at ${lastRead}.`}`));
  else lastRead = now;
  at("read").textContent = (fault ? "Tried at " : "Read at ") + now;
  document.body.className = fault ? "stale" : "";
  const words = (all) => [...all].map((one) => one.textContent).join();
  // nothing is told twice to who listens
  if (words(told) !== words(at("faults").children)) at("faults").replaceChildren(...told);
  timer = setTimeout(() => wake((isDue = true)), 1000 * (fault ? AFTER_FAULT : EVERY));
}

function wake() {
  if (isDue && !document.hidden) refresh();
}

document.addEventListener("visibilitychange", wake);
addEventListener("hashchange", refresh);
on("refresh", "click", refresh);
on("ring", "change", () => (location.hash = "#ring=" + encodeURIComponent(at("ring").value)));
on("which", "change", drawDevices);
on("fold", "click", () => {
  const open = zones().some((box) => box.open);
  for (const box of zones()) box.open = !open;
});
on("seeds", "submit", (event) => {
  event.preventDefault();
  refresh();
});
on("pick", "change", () => {
  picked = [Number(at("from").value), Number(at("to").value)];
  refresh();
});
// Links within the page move the focus, and leave the ring in the address alone.
document.addEventListener("click", (event) => {
  const id = event.target.closest("a")?.hash.slice(1);
  if (!id) return;
  event.preventDefault();
  const title = at(id).querySelector(":scope > h2") ?? at(id);
  title.tabIndex = -1;
  title.focus();
  at(id).scrollIntoView();
});
refresh();
</script>
</body>
</html>
"##;

/// The page, as it is sent.
pub fn page() -> &'static str
    ensures { result.now ≡ PAGE.now }
{
    PAGE
}
