//! The page of a primary.

/// What `GET /` answers at a primary: one file that takes nothing from elsewhere. It reads `/status` each second, looks up rows and
/// posts jobs. What the node answers is put into the page as text, and never as markup.
pub(crate) const PRIMARY_PAGE: &str = r#"<!doctype html>
<html lang="en">
<meta charset="utf-8">
<meta name="viewport" content="width=device-width">
<title>BatchDB primary</title>
<style>
  :root {
    color-scheme: light dark;
    --back: #ffffff; --text: #1b1f24; --dim: #59636e; --rule: #d5dae1; --soft: #f4f6f9; --blue: #1f5fbf; --good: #1a7f37; --bad: #b3261e;
  }
  @media (prefers-color-scheme: dark) {
    :root {
      --back: #13161b; --text: #e4e8ee; --dim: #9aa5b3; --rule: #353c47; --soft: #1c2129; --blue: #6ea8fe; --good: #4cc26a; --bad: #ff8a80;
    }
  }
  * { box-sizing: border-box }
  body { margin: 0 auto; max-width: 68rem; padding: 1rem 1.25rem 3rem; font: 15px/1.45 system-ui, sans-serif; background: var(--back);
    color: var(--text) }
  header { display: flex; flex-wrap: wrap; align-items: baseline; gap: 0 1.25rem; border-bottom: 1px solid var(--rule) }
  h1 { font-size: 1.35rem; margin: .4rem 0 }
  h2 { font-size: 1.05rem; margin: 1.75rem 0 .5rem }
  p { margin: .4rem 0 }
  .dim, dt, caption, th, figcaption { color: var(--dim) }
  .good::before, .bad::before { content: ''; display: inline-block; width: .6em; height: .6em; border-radius: 50%; margin-right: .45em;
    background: currentColor }
  .good { color: var(--good) }
  .bad { color: var(--bad) }
  .stale { opacity: .45 }
  dl { display: grid; grid-template-columns: repeat(auto-fit, minmax(7.4rem, 1fr)); gap: .5rem; margin: 1rem 0 0 }
  dl div { background: var(--soft); border-radius: 6px; padding: .45rem .55rem }
  dt { font-size: .8rem }
  dd { margin: 0; font-size: 1.15rem; font-variant-numeric: tabular-nums; overflow-wrap: anywhere }
  figure { margin: .5rem 0 }
  figcaption { display: flex; justify-content: space-between; font-size: .85rem }
  svg { display: block; width: 100%; height: 8rem; border: solid var(--rule); border-width: 1px 0 }
  svg path { vector-effect: non-scaling-stroke }
  .line { fill: none; stroke: var(--blue); stroke-width: 2; stroke-linejoin: round }
  .area { fill: var(--blue); opacity: .14 }
  .rate { font-size: 1.6rem; font-weight: 600; font-variant-numeric: tabular-nums }
  table { border-collapse: collapse; font-variant-numeric: tabular-nums }
  caption { text-align: left; font-size: .85rem; padding-bottom: .2rem }
  th, td { border-bottom: 1px solid var(--rule); padding: .25rem .9rem; text-align: right; white-space: nowrap }
  th { font-weight: 500; font-size: .85rem }
  th:first-child, td:first-child { padding-left: .2rem; text-align: left }
  .two { display: grid; grid-template-columns: repeat(auto-fit, minmax(min(21rem, 100%), 1fr)); gap: 0 2.5rem }
  .row { display: flex; flex-wrap: wrap; align-items: end; gap: .6rem }
  .row > span { padding: .35rem 0 }
  label { display: block; font-size: .9rem; margin-bottom: .2rem }
  input, textarea, button { font: inherit; color: inherit; background: var(--soft); border: 1px solid var(--dim); border-radius: 5px;
    padding: .35rem .6rem }
  textarea { width: 100%; resize: vertical }
  textarea, pre, code, input, .found { font-family: ui-monospace, monospace; font-size: .9rem }
  button { background: var(--blue); border-color: var(--blue); color: var(--back); font-weight: 600; cursor: pointer }
  button:disabled { opacity: .5 }
  :focus-visible { outline: 3px solid var(--blue); outline-offset: 2px }
  pre { margin: .4rem 0; white-space: pre-wrap; overflow-wrap: anywhere }
  mark { background: var(--bad); color: var(--back) }
  summary { cursor: pointer; color: var(--dim); font-size: .9rem; width: fit-content }
  .scroll, details pre { overflow-x: auto }
  details pre { white-space: pre }
  #found { margin-top: .8rem }
</style>
<header>
  <h1>BatchDB primary</h1>
  <p id="state" role="status" class="dim">asking the node</p>
  <p id="node" class="dim"></p>
</header>
<main>
  <section id="figures" aria-label="Figures">
    <h2>Commits</h2>
    <p><span id="rate" class="rate">-</span> durable commits a second</p>
    <figure>
      <figcaption><span id="top">1</span></figcaption>
      <svg id="chart" role="img" viewBox="0 0 600 100" preserveAspectRatio="none" aria-label="durable commits a second, of the last 60 s">
        <path id="area" class="area"/><path id="line" class="line"/>
      </svg>
      <figcaption><span>60 s ago</span><span>now</span></figcaption>
    </figure>
    <dl>
      <div><dt>durable commits</dt><dd id="durable">-</dd></div>
      <div><dt>journal bytes</dt><dd id="journal">-</dd></div>
      <div><dt>jobs: ticket</dt><dd id="ticket">-</dd></div>
      <div><dt>jobs: conflict</dt><dd id="conflict">-</dd></div>
      <div><dt>jobs: refused</dt><dd id="refused">-</dd></div>
      <div><dt>rounds of jobs</dt><dd id="rounds">-</dd></div>
      <div><dt>connections</dt><dd id="connections">-</dd></div>
    </dl>
    <h2>Replicas</h2>
    <div class="scroll"><table>
      <caption>What each was told when it last asked for a version</caption>
      <thead><tr><th scope="col">replica<th scope="col">version<th scope="col">commits behind<th scope="col">told</thead>
      <tbody id="replicas"></tbody>
    </table></div>
  </section>
  <div class="two">
    <section>
      <h2>Look up a row</h2>
      <form id="look">
        <div class="row">
          <div><label for="table">Table</label>
            <input id="table" size="12" required pattern="[a-z][a-z0-9_]*" title="a table's name" autocapitalize="off" spellcheck="false">
          </div>
          <div><label for="row">Row</label>
            <input id="row" size="14" required pattern="0|[1-9][0-9]*" title="a row's number" inputmode="numeric" autocomplete="off"></div>
          <button id="find">Look up</button>
        </div>
      </form>
      <div id="found" role="status" class="scroll"></div>
    </section>
    <section>
      <h2>Post jobs</h2>
      <form id="post">
        <label for="jobs">Jobs, in their order: each is a commit of its own</label>
        <textarea id="jobs" rows="7" spellcheck="false" autocapitalize="off" autocomplete="off" aria-describedby="keys"></textarea>
        <div class="row"><button id="send">Post</button><span id="keys" class="dim">Ctrl+Enter posts</span></div>
      </form>
      <div id="posted" role="status"></div>
      <details><summary>Lines of a job</summary>
<pre>job WORKER              it begins; worker 0, 1, ..
insert TABLE ROW V..    a row with these values
set TABLE ROW COLUMN V  one value of a row
delete TABLE ROW
column TABLE V          a column more, V for each row
expect TABLE ROW COLUMN V
                        only if the value is V
absent TABLE ROW        only if there is no such row
end                     it ends</pre>
        <p class="dim">A value V is a number, or bytes as <code>x4e45</code>. Columns count from 0.</p>
      </details>
    </section>
  </div>
</main>
<script>
'use strict';
const SECONDS_SHOWN = 60;
const at = id => document.getElementById(id);
const made = (name, text, className = '') => Object.assign(document.createElement(name), { textContent: text, className });
const told = number => number.toLocaleString('en');

function span(seconds) {
  if (seconds < 60) return `${seconds < 10 ? seconds.toFixed(1) : Math.floor(seconds)} s`;
  const minutes = Math.floor(seconds / 60);
  return minutes < 60 ? `${minutes} min` : `${Math.floor(minutes / 60)} h ${minutes % 60} min`;
}

// What was counted last, and when; and the commits a second of each moment, null where the node did not answer.
let last = null;
const rates = [];

// It is changed only where it differs, so that a screen reader says it once.
function tellState(isAnswered) {
  const className = isAnswered ? 'good' : 'bad';
  if (at('state').className === className) return;
  const time = new Date().toTimeString().slice(0, 8);
  at('state').textContent = isAnswered ? 'answers' : `does not answer since ${time}; it is asked again each second`;
  at('state').className = className;
}

function draw(now) {
  while (rates.length && rates[0].time < now - (SECONDS_SHOWN + 5) * 1000) rates.shift();
  const most = Math.max(1, ...rates.map(it => it.rate ?? 0));
  const power = 10 ** Math.floor(Math.log10(most));
  const top = [1, 1.5, 2, 3, 4, 6, 8, 10].map(it => it * power).find(it => it >= most);
  let line = '', area = '', begun = null;
  const end = x => { if (begun !== null) area += `L${x} 100L${begun} 100Z`; begun = null };
  let x = 0;
  for (const { time, rate } of rates) {
    if (rate === null) { end(x); continue }
    x = (600 - (now - time) / 1000 * 600 / SECONDS_SHOWN).toFixed(1);
    const point = `${begun === null ? 'M' : 'L'}${x} ${(98 - 96 * rate / top).toFixed(1)}`;
    begun ??= x;
    line += point;
    area += point;
  }
  end(x);
  at('line').setAttribute('d', line);
  at('area').setAttribute('d', area);
  at('top').textContent = told(top);
}

function showRate(durable, now) {
  // There is none across a time without answers; and fewer commits than before are those of another journal.
  const isKnown = durable !== null && last !== null && durable >= last.durable;
  const rate = isKnown ? (durable - last.durable) * 1000 / (now - last.time) : null;
  last = durable === null ? null : { durable, time: now };
  rates.push({ time: now, rate });
  at('rate').textContent = rate === null ? '-' : told(rate < 10 ? Math.round(rate * 10) / 10 : Math.round(rate));
  at('chart').setAttribute('aria-label', `durable commits a second, of the last 60 s; now ${at('rate').textContent}`);
}

function replicaRow(it, durable) {
  const row = document.createElement('tr');
  const words = it.version === undefined ? ['-', '-', 'has not asked']
    : [told(it.version), told(Math.max(0, durable - it.version)), `${span(it.seconds)} ago`];
  row.append(...[it.replica, ...words].map(word => made('td', word)));
  return row;
}

function show(status) {
  at('node').textContent = `version ${status.version}, schema ${status.schema.slice(0, 12)}`;
  at('durable').textContent = told(status.durable);
  at('journal').textContent = told(status.journal_bytes);
  for (const answer of ['ticket', 'conflict', 'refused']) at(answer).textContent = told(status.jobs[answer]);
  at('rounds').textContent = told(status.rounds);
  at('connections').textContent = told(status.connections);
  at('replicas').replaceChildren(...status.replicas.map(it => replicaRow(it, status.durable)));
}

async function poll() {
  const begun = performance.now();
  let status = null;
  try {
    const answer = await fetch('status', { signal: AbortSignal.timeout(5000) });
    if (answer.ok) status = await answer.json();
  } catch (error) { /* there is none */ }
  const now = performance.now();
  setTimeout(poll, Math.max(0, 1000 - (now - begun)));
  tellState(status !== null);
  at('figures').className = status ? '' : 'stale';
  if (status) show(status);
  showRate(status && status.durable, now);
  draw(now);
}

async function look() {
  const path = `tables/${at('table').value}/${at('row').value}`;
  try {
    const answer = await fetch(path, { headers: { accept: 'application/json' } });
    if (!answer.ok) return at('found').replaceChildren(made('p', `${answer.status}: ${(await answer.text()).trim()}`, 'bad'));
    const row = await answer.json();
    const table = made('table', '', 'found');
    table.append(made('caption', `${row.table} ${row.row} at version ${row.version}`));
    const columns = table.createTHead().insertRow();
    columns.append(...row.values.map((_, column) => Object.assign(made('th', `column ${column}`), { scope: 'col' })));
    const values = table.createTBody().insertRow();
    for (const value of row.values) values.insertCell().textContent = value;
    at('found').replaceChildren(table);
  } catch (error) {
    at('found').replaceChildren(made('p', 'The node does not answer.', 'bad'));
  }
}

// The lines of a text around the one at fault, which is marked.
function marked(text, number) {
  const block = made('pre', '');
  text.split('\n').forEach((line, index) => {
    if (Math.abs(index + 1 - number) > 2) return;
    const shown = `${index + 1}  ${line}`;
    block.append(index + 1 === number ? made('mark', shown) : shown, '\n');
  });
  return block;
}

const MEANINGS = {
  200: 'each job has a ticket, and is durable',
  400: 'the jobs do not read; nothing was done',
  409: 'a job has no ticket; those that have one are durable',
};

async function post() {
  // (a second Ctrl+Enter comes here too, which must not do the jobs twice)
  if (at('send').disabled) return;
  const text = at('jobs').value;
  at('send').disabled = true;
  at('posted').replaceChildren(made('p', 'posted ..', 'dim'));
  try {
    const answer = await fetch('jobs', { method: 'POST', body: text });
    const lines = (await answer.text()).trim();
    const meaning = MEANINGS[answer.status] ?? (answer.status < 500 ? 'nothing was done' : 'a job may be done or not');
    const parts = [made('p', `${answer.status}: ${meaning}`, answer.ok ? 'good' : 'bad'), made('pre', lines)];
    const fault = answer.status === 400 && /^line (\d+): /.exec(lines);
    if (fault) parts.push(marked(text, Number(fault[1])));
    at('posted').replaceChildren(...parts);
  } catch (error) {
    at('posted').replaceChildren(made('p', 'No answer: the jobs may be done or not. Look up a row that they insert.', 'bad'));
  }
  at('send').disabled = false;
}

at('look').addEventListener('submit', event => { event.preventDefault(); look() });
at('post').addEventListener('submit', event => { event.preventDefault(); post() });
at('jobs').addEventListener('keydown', event => {
  if (event.key !== 'Enter' || !(event.ctrlKey || event.metaKey)) return;
  event.preventDefault();
  at('post').requestSubmit(at('send'));
});
poll();
</script>
</html>
"#;
