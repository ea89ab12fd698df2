//! The page of a replica.

/// What `GET /` answers at a replica: one file that takes nothing from elsewhere. It posts batches of queries and shows their report
/// as tables and bars. What the node answers is put into the page as text, and never as markup.
pub(crate) const REPLICA_PAGE: &str = r#"<!doctype html>
<html lang="en">
<meta charset="utf-8">
<meta name="viewport" content="width=device-width">
<title>BatchDB replica</title>
<style>
  :root {
    color-scheme: light dark;
    --back: #ffffff; --text: #1b1f24; --dim: #59636e; --rule: #d5dae1; --soft: #f4f6f9; --blue: #1f5fbf; --good: #1a7f37; --bad: #b3261e;
  }
  @media (prefers-color-scheme: dark) {
    :root {
      --back: #13161b; --text: #e4e8ee; --dim: #9aa5b3; --rule: #353c47; --soft: #1c2129; --blue: #6ea8fe; --good: #4cc26a; --bad: #ff8a80;
    }
  }
  * { box-sizing: border-box }
  body { margin: 0 auto; max-width: 68rem; padding: 1rem 1.25rem 3rem; font: 15px/1.45 system-ui, sans-serif; background: var(--back);
    color: var(--text) }
  header { display: flex; flex-wrap: wrap; align-items: baseline; gap: 0 1.25rem; border-bottom: 1px solid var(--rule) }
  h1 { font-size: 1.35rem; margin: .4rem 0 }
  h2 { font-size: 1rem; margin: 0 0 .4rem; overflow-wrap: anywhere }
  p { margin: .4rem 0 }
  .dim, caption, th, figcaption { color: var(--dim) }
  .good::before, .bad::before { content: ''; display: inline-block; width: .6em; height: .6em; border-radius: 50%; margin-right: .45em;
    background: currentColor }
  .good { color: var(--good) }
  .bad { color: var(--bad) }
  .two { display: grid; grid-template-columns: minmax(0, 3fr) minmax(0, 2fr); gap: 0 2rem; margin-top: 1rem }
  @media (max-width: 48rem) { .two { grid-template-columns: 100% } }
  .row { display: flex; flex-wrap: wrap; align-items: center; gap: .5rem 1.1rem; margin: .4rem 0 }
  aside, label, caption, th, figcaption { font-size: .9rem }
  textarea, button, select { font: inherit; color: inherit; background: var(--soft); border: 1px solid var(--dim); border-radius: 5px;
    padding: .3rem .6rem }
  textarea { width: 100%; resize: vertical }
  textarea, pre, code, td, .name, .bars { font-family: ui-monospace, monospace; font-size: .9rem }
  button { background: var(--blue); border-color: var(--blue); color: var(--back); font-weight: 600; cursor: pointer }
  .name { background: none; border: 0; padding: 0; color: var(--blue) }
  :focus-visible { outline: 3px solid var(--blue); outline-offset: 2px }
  pre { white-space: pre-wrap; overflow-wrap: anywhere }
  mark { background: var(--bad); color: var(--back) }
  summary { cursor: pointer; width: fit-content }
  ul, dl, dd { margin: .3rem 0 .5rem }
  ul, dd { padding-left: 1.1rem }
  section { border-top: 1px solid var(--rule); padding: .8rem 0 }
  .answer { display: flex; flex-wrap: wrap; align-items: start; gap: .8rem 2rem }
  .scroll, .bars { overflow: auto; max-width: 100%; max-height: 32rem }
  table { border-collapse: collapse }
  caption { text-align: left; caption-side: bottom; padding-top: .2rem }
  th, td { border-bottom: 1px solid var(--rule); padding: .2rem .8rem; text-align: right; white-space: nowrap }
  th { font-weight: 500; position: sticky; top: 0; background: var(--back) }
  .bytes { text-align: left }
  figure { flex: 1 1 20rem; min-width: 0; margin: 0 }
  figcaption { margin-bottom: .4rem }
  #said { font-weight: 600 }
  .bars { display: grid; grid-template-columns: fit-content(40%) 1fr max-content; gap: .25rem .7rem; align-items: center }
  .bars span { overflow: hidden; text-overflow: ellipsis; white-space: nowrap }
  .bars i { height: 1.1rem; background: var(--blue); border-radius: 2px }
</style>
<header>
  <h1>BatchDB replica <span id="number"></span></h1>
  <p id="state" role="status" class="dim">asking the node</p>
  <p id="node" class="dim"></p>
</header>
<main>
  <div class="two">
    <form id="form">
      <label for="queries">Queries, one a line, up to 64: all on one version</label>
      <textarea id="queries" rows="6" spellcheck="false" autocapitalize="off" aria-describedby="keys"></textarea>
      <div class="row">
        <button id="ask">Ask</button>
        <label><input id="again" type="checkbox"> again every second</label>
        <span id="keys" class="dim">Ctrl+Enter asks</span>
      </div>
      <div id="fault" role="alert"></div>
    </form>
    <aside aria-label="Help">
      <details id="schema" open hidden><summary>Tables, and their columns by number</summary><ul id="tables"></ul></details>
      <details><summary>Words of a query, in this order</summary>
        <dl>
          <dt><code>query TABLE</code><dd>the rows of a table
          <dt><code>join COLUMN TABLE</code><dd>each with the row of that table that its column names, if there is one
          <dt><code>where COLUMN = V and ..</code><dd>rows that meet each condition: <code>= != &lt; &lt;= &gt; &gt;=</code>
          <dt><code>by COLUMN COLUMN</code><dd>rows with the same values are one group; by one column there are bars
          <dt><code>get count sum COLUMN min COLUMN max COLUMN</code><dd>what is asked of each group, up to 8
        </dl>
        <p class="dim">Only the first and the last are needed. COLUMN is a number from 0; <code>j0</code> is column 0 of the joined row.
        V is a number, or bytes as <code>x4e45</code>. Lines that begin with <code>#</code> are skipped.</p>
      </details>
    </aside>
  </div>
  <p><span id="said" role="status"></span> <span id="age" class="dim"></span></p>
  <div id="answers"></div>
  <template id="part">
    <section>
      <h2><code></code></h2>
      <div class="answer">
        <div class="scroll">
          <table><caption></caption><thead><tr></tr></thead><tbody></tbody></table>
          <button type="button">Show all rows</button>
        </div>
        <figure>
          <figcaption><label>bars of <select></select></label><span></span></figcaption>
          <!-- the table says the same -->
          <div class="bars" aria-hidden="true"></div>
        </figure>
      </div>
    </section>
  </template>
</main>
<script>
'use strict';
// So that a large answer does not stop the page.
const ROWS_SHOWN = 500, BARS_SHOWN = 100;
const at = id => document.getElementById(id);
const made = (name, text = '', className = '') => Object.assign(document.createElement(name), { textContent: text, className });

// The text that is asked again, if it read; when the report was asked for; the ask that waits for its answer.
let asked = null, askedAt = null, waiting = null;
// The version of the newest report when the tables were asked for last, and their lines.
let tablesAt = null, tableLines = '';
let parts = [];

// It is changed only where it differs, so that a screen reader says it once.
function tellState(isAnswered) {
  const className = isAnswered ? 'good' : 'bad';
  if (at('state').className === className) return;
  const time = new Date().toTimeString().slice(0, 8);
  at('state').textContent = isAnswered ? 'answers' : `does not answer since ${time}; it is asked again each second`;
  at('state').className = className;
  // (it may be another node)
  tablesAt = null;
}

async function poll() {
  const begun = performance.now();
  let status = null;
  try {
    const answer = await fetch('status', { signal: AbortSignal.timeout(5000) });
    if (answer.ok) status = await answer.json();
  } catch (error) { /* there is none */ }
  setTimeout(poll, Math.max(0, 1000 - (performance.now() - begun)));
  tellState(status !== null);
  if (!status) return;
  at('number').textContent = status.replica;
  document.title = `BatchDB replica ${status.replica}`;
  const told = [`newest report at version ${status.applied}`, `${status.queries} queries in ${status.batches} batches`];
  if (status.waiting) told.push(`${status.waiting} waiting`);
  if (status.broken) told.push('broken');
  at('node').textContent = told.join(', ');
  if (tablesAt !== status.applied) showTables(status.applied);
}

// The tables, to which columns may have been added: a line of their version, and then one for each. A name adds a query.
async function showTables(version) {
  let text = '';
  try {
    const answer = await fetch('tables');
    if (!answer.ok) return;
    text = await answer.text();
  } catch (error) { return }
  tablesAt = version;
  const lines = text.slice(text.indexOf('\n') + 1);
  if (lines === tableLines) return;
  tableLines = lines;
  const tables = lines.trimEnd().split('\n').map(line => line.split(' '));
  at('schema').hidden = false;
  at('tables').replaceChildren(...tables.map(([, name, ...kinds]) => {
    const item = made('li');
    const button = Object.assign(made('button', name, 'name'), { type: 'button', title: 'adds a query' });
    button.addEventListener('click', () => {
      at('queries').value = `${at('queries').value.trimEnd()}\nquery ${name} get count`.trimStart();
      at('queries').focus();
    });
    item.append(button, ` ${kinds.map((kind, column) => `${column} ${kind}`).join(', ')}`);
    return item;
  }));
  if (!at('queries').value) at('queries').value = `query ${tables[0][1]} get count`;
}

// What a query's columns are: the words by which it groups, and then those of each aggregate.
function headsOf(line) {
  const words = line.split(' ');
  let place = 2;
  if (words[place] === 'join') place += 3;
  if (words[place] === 'where') do place += 4; while (words[place] === 'and');
  const groups = [], aggregates = [];
  if (words[place] === 'by') while (++place < words.length && words[place] !== 'get') groups.push(`by ${words[place]}`);
  while (++place < words.length) aggregates.push(words[place] === 'count' ? 'count' : `${words[place]} ${words[++place]}`);
  return { groups, heads: [...groups, ...aggregates] };
}

// Bytes that are printable letters, behind which there may be zeros, as these letters; another word as it is.
function labelOf(word) {
  const text = word.startsWith('x') ? word.slice(1).replace(/../g, pair => String.fromCharCode(parseInt(pair, 16))) : '';
  const letters = text.replace(/\0+$/, '');
  return /^[ -~]+$/.test(letters) ? letters : word;
}

// A query's part of the page. It stays while the same queries are asked again, and so do its choices.
class Part {
  constructor(line) {
    Object.assign(this, headsOf(line), { line, rowsShown: ROWS_SHOWN, measure: 1 });
    this.element = at('part').content.firstElementChild.cloneNode(true);
    this.find('code').textContent = line;
    this.find('tr').append(...this.heads.map(head => Object.assign(made('th', head), { scope: 'col' })));
    this.find('button').addEventListener('click', () => { this.rowsShown = Infinity; this.showRows() });
    this.find('select').addEventListener('change', event => { this.measure = Number(event.target.value); this.showBars() });
  }
  find(name) { return this.element.querySelector(name) }
  show(rows) {
    // What is the same stays, with what a person has marked in it.
    if (JSON.stringify(rows) === JSON.stringify(this.rows)) return;
    this.rows = rows;
    this.showRows();
    const measures = [...this.heads.keys()].filter(column => column > 0 && rows.every(row => /^-?\d+$/.test(row[column])));
    const hasBars = this.groups.length === 1 && rows.length > 0 && measures.length > 0;
    this.find('figure').hidden = !hasBars;
    if (!hasBars) return;
    if (!measures.includes(this.measure)) this.measure = measures[0];
    const options = measures.map(column => new Option(this.heads[column], column, false, column === this.measure));
    // (a choice that is open would close)
    if (this.find('select').length !== options.length) this.find('select').replaceChildren(...options);
    this.showBars();
  }
  showRows() {
    const count = this.rows.length, isPart = count > this.rowsShown;
    this.find('button').hidden = !isPart;
    this.find('caption').textContent = (isPart ? `${this.rowsShown} of ` : '') + (count === 1 ? '1 row' : `${count} rows`);
    this.find('tbody').replaceChildren(...this.rows.slice(0, this.rowsShown).map(words => {
      const row = made('tr');
      row.append(...words.map(word => made('td', word, word.startsWith('x') ? 'bytes' : '')));
      return row;
    }));
  }
  showBars() {
    const rows = this.rows.slice(0, BARS_SHOWN);
    this.find('figcaption span').textContent = rows.length < this.rows.length ? ` (the first ${BARS_SHOWN} groups)` : '';
    // A bar's length may be rounded; its number is the exact text.
    const values = rows.map(row => Number(row[this.measure]));
    const least = Math.min(0, ...values), width = Math.max(0, ...values) - least || 1;
    this.find('.bars').replaceChildren(...rows.flatMap((row, index) => {
      const bar = made('i'), value = values[index];
      bar.style.marginLeft = `${(Math.min(value, 0) - least) / width * 100}%`;
      bar.style.width = `${Math.abs(value) / width * 100}%`;
      return [Object.assign(made('span', labelOf(row[0])), { title: row[0] }), bar, made('span', row[this.measure])];
    }));
  }
}

// How old the report is, and how long the next one is waited for.
function tellAge() {
  const since = time => `${Math.floor((performance.now() - time) / 1000)} s`;
  const words = [];
  if (askedAt !== null) words.push(`asked ${since(askedAt)} ago`);
  if (waiting) words.push(`waiting for an answer for ${since(waiting.begun)}`);
  at('age').textContent = words.join('; ');
}

function showReport(report, lines, begun) {
  // Said once, and not each second.
  at('said').setAttribute('aria-live', at('again').checked ? 'off' : 'polite');
  at('said').textContent = `version ${report.version}`;
  askedAt = begun;
  if (lines.join('\n') !== parts.map(it => it.line).join('\n')) {
    parts = lines.map(line => new Part(line));
    at('answers').replaceChildren(...parts.map(it => it.element));
  }
  report.queries.forEach((query, number) => parts[number].show(query.rows));
}

// The lines of a text around the one at fault, which is marked.
function marked(text, number) {
  const block = made('pre');
  text.split('\n').forEach((line, index) => {
    if (Math.abs(index + 1 - number) > 2) return;
    const shown = `${index + 1}  ${line}`;
    block.append(index + 1 === number ? made('mark', shown) : shown, '\n');
  });
  return block;
}

// Why there is no report, or nothing where there is one.
function showFault(answer, reason, text) {
  const told = answer ? `${answer.status}: ${reason}` : 'There was no answer.';
  const line = answer?.status === 400 && /^line (\d+): /.exec(reason);
  const shown = answer?.ok ? [] : [made('p', told, 'bad'), ...line ? [marked(text, Number(line[1]))] : []];
  at('fault').replaceChildren(...shown);
}

async function ask(text) {
  waiting?.abort();
  const begun = performance.now();
  const mine = waiting = Object.assign(new AbortController(), { begun });
  // An empty line would end the batch. As comments the lines keep their numbers.
  const lines = text.trimEnd().split('\n').map(line => line.trim() ? line : '#');
  let answer = null, body = '';
  try {
    answer = await fetch('batches', {
      method: 'POST', body: lines.join('\n') + '\n', headers: { accept: 'application/json' }, signal: mine.signal,
    });
    body = await answer.text();
  } catch (error) { answer = null }
  // (a newer ask has taken the place of this one)
  if (waiting !== mine) return;
  waiting = null;
  const isFault = answer?.status === 400;
  at('queries').setAttribute('aria-invalid', isFault);
  // A text that does not read is not asked again.
  asked = isFault ? null : text;
  if (answer?.ok) showReport(JSON.parse(body), lines.filter(line => !line.startsWith('#')), begun);
  showFault(answer, body.trim(), text);
  tellAge();
}

function askByHand() {
  history.replaceState(at('queries').value, '');
  ask(at('queries').value);
}

async function askAgain() {
  const begun = performance.now();
  const isDue = at('again').checked && asked !== null && !waiting && at('state').className === 'good';
  try {
    if (isDue) await ask(asked);
  } finally { setTimeout(askAgain, Math.max(50, 1000 - (performance.now() - begun))) }
}

at('form').addEventListener('submit', event => { event.preventDefault(); askByHand() });
at('again').addEventListener('change', () => { if (at('again').checked) askByHand() });
at('queries').addEventListener('keydown', event => {
  if (event.key !== 'Enter' || !(event.ctrlKey || event.metaKey)) return;
  event.preventDefault();
  askByHand();
});
// A page that is not to be stored is read anew without what was typed.
at('queries').value = history.state ?? '';
setInterval(tellAge, 250);
poll();
askAgain();
</script>
</html>
"#;
