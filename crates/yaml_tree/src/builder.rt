//! The builder: nodes that are whole, their names, and what is still open.

ghost use Rattle.std.specs.Prelude.{◌≡◌, ◌+◌, ◌*◌, ◌∷◌, Some, None, OnOk, IfOk};
ghost use Rattle.yaml_tree.specs.inside.Stack.{new_open, finished};
ghost use Rattle.yaml_tree.specs.inside.Builder.{next_known, known_of, with_node, put_node, valued, closed, closed_deeper, begun, next_row, headed, can_hold, can_name, with_scalar, with_name, with_alias, put_found, with_bar, with_line, ended, with_form, odd_kind, refused, take_token, take_tokens, Steps, judged, whole};
ghost use Rattle.yaml_tree.specs.Trees.{root_number};
ghost use Rattle.yaml_tree.specs.inside.Builder as machine;
ghost use Rattle.yaml_tree.specs.Holds.{scalar_value};
ghost use Rattle.yaml_tree.specs.Tree.{kind_of};

use crate::fault::{FaultKind, Stop};
use crate::hashing::Hashing;
use crate::known::{Anchors, GivenName, KnownNode, Measure, begins_at};
use crate::literal::{Literal, TextLines};
use crate::made::MadeNodes;
use crate::node::{Node, Value};
use crate::shape::flow_fault;
use crate::stack::{Open, Stack};
use sim_base::NoMemory;
use std::alloc::Global;
use yaml_tokens::{Chomp, Odd, Pieces, Scalar, TextOrNull, Token, why_bracket};

/// The tree so far.
#[derive(Drop)]
pub(crate) struct Builder {
    pub alloc: Global,
    pub hashing: Hashing,
    /// The nodes that are whole.
    pub nodes: MadeNodes,
    /// The block collections that are open.
    pub open_rows: Stack,
    /// The flow collections that are open.
    pub cells: Stack,
    /// The value of the innermost open row, where it has come.
    pub value: Option<KnownNode>,
    /// The name that waits for a node.
    pub name: Option<GivenName>,
    /// The literal block that is open.
    pub literal: Option<Literal>,
    /// The nodes that have names.
    pub names: Anchors,
}

impl Builder {
    pub fn new(alloc: Global, hashing: Hashing) -> Builder
        ensures { result ≡ machine.fresh alloc }
    {
        let names = Anchors::new(alloc, &hashing);
        Builder {
            alloc,
            hashing,
            nodes: MadeNodes::new(alloc),
            open_rows: Stack::new(alloc),
            cells: Stack::new(alloc),
            value: None,
            name: None,
            literal: None,
            names,
        }
    }

    /// Makes a node, which takes the name that waits for one. No memory has room for 2^32 nodes.
    #[tactic(auto, unfolding(crate::specs::inside::Builder::with_node))]
    pub fn make_node(
        &mut self,
        line: usize,
        value: Value,
        measure: Measure,
    ) -> Result<KnownNode, NoMemory>
        ensures { IfOk result (λ k. (k ≡ next_known measure self.old) × (self.new ≡ with_node line value measure self.old)) }
    {
        let Some(node) = self.nodes.next_number() else {
            return Err(NoMemory);
        };
        let known = KnownNode { node, measure };
        let line = begins_at(line, &self.name);
        let may_stand = measure.fault().is_none();
        self.nodes.push(Node { line, value }, may_stand)?;
        if let Some(name) = self.name.take() {
            self.names.insert(name.text, known)?;
        }
        Ok(known)
    }

    /// Makes a node that is the value.
    #[tactic(auto, unfolding(crate::specs::inside::Builder::put_node))]
    fn put_node(&mut self, line: usize, value: Value, measure: Measure) -> Result<(), NoMemory>
        ensures { OnOk result (self.new ≡ put_node line value measure self.old) }
    {
        let known = self.make_node(line, value, measure)?;
        self.value = Some(known);
        Ok(())
    }

    /// What was made of nodes. The rest is let go.
    pub fn into_made(self) -> MadeNodes
        ensures { result ≡ self.nodes }
    {
        let Builder {
            alloc: _,
            hashing: _,
            nodes,
            open_rows: _,
            cells: _,
            value: _,
            name: _,
            literal: _,
            names: _,
        } = self;
        nodes
    }

    /// The value, which is a null on this line where none has come.
    #[tactic(auto, unfolding(crate::specs::inside::Builder::valued, crate::specs::inside::Builder::put_node))]
    fn take_value(&mut self, line: usize) -> Result<KnownNode, NoMemory>
        ensures { IfOk result (λ k. (self.new ≡ valued line self.old) × (self.new.value ≡ Some k)) }
    {
        match self.value {
            Some(known) => Ok(known),
            None => {
                let known = self.make_node(line, Value::Null, Measure::one_node())?;
                self.value = Some(known);
                Ok(known)
            }
        }
    }

    /// Finishes the last row of a collection with the value.
    fn finish_row(&mut self, last: Open) -> Result<Open, NoMemory>
        ensures { IfOk result (λ rows. (self.new ≡ valued last.line self.old) × (rows ≡ finished last (known_of self.new.value))) }
    {
        let value = self.take_value(last.line)?;
        last.finish_row(self.alloc, &self.hashing, value)
    }

    /// Makes a collection, its last row finished, the value of the row around it.
    #[tactic(auto, unfolding(crate::specs::inside::Builder::closed))]
    fn close(&mut self, last: Open) -> Result<(), NoMemory>
        ensures { OnOk result (self.new ≡ closed last self.old) }
    {
        let rows = self.finish_row(last)?;
        let line = rows.first_line;
        let measure = rows.measure;
        let (collection, name) = rows.into_value(self.alloc, &self.hashing)?;
        self.name = name;
        self.put_node(line, collection, measure)
    }

    /// Closes the collections that are deeper.
    pub fn close_deeper(&mut self, depth: u128) -> Result<(), NoMemory>
        ensures { OnOk result (self.new ≡ closed_deeper depth self.old) }
    {
        while let Some(last) = self.open_rows.pop_deeper(depth) {
            self.close(last)?;
        }
        Ok(())
    }

    /// Begins a collection.
    #[tactic(auto, unfolding(crate::specs::inside::Builder::begun))]
    fn begin(&mut self, depth: u128, mapping: bool, line: usize, key: Scalar) -> Result<(), Stop>
        ensures { Steps result self.new (begun depth mapping line key self.old) }
    {
        if self.value.is_some() {
            return Err(Stop::Fault(FaultKind::Syntax));
        }
        self.open(depth, mapping, line, key)?;
        Ok(())
    }

    /// Opens a collection, which takes the name that waits for a node.
    fn open(&mut self, depth: u128, mapping: bool, line: usize, key: Scalar) -> Result<(), NoMemory>
        ensures { OnOk result (self.new ≡ record self.old { open_rows = new_open depth mapping line key self.old.name ∷ self.old.open_rows; name = None }) }
    {
        let name = self.name.take();
        let open = Open::new(self.alloc, depth, mapping, line, key, name);
        self.open_rows.push(open)
    }

    /// Begins the next row of a collection.
    #[tactic(auto, unfolding(crate::specs::inside::Builder::next_row))]
    fn next_row(&mut self, last: Open, line: usize, key: Scalar) -> Result<(), NoMemory>
        ensures { OnOk result (self.new ≡ next_row last line key self.old) }
    {
        let rows = self.finish_row(last)?;
        self.open_rows.push(rows.with_next_row(line, key))?;
        self.value = None;
        Ok(())
    }

    /// Takes a key or a dash.
    #[tactic(auto, unfolding(crate::specs::inside::Builder::headed))]
    fn head(&mut self, depth: u128, mapping: bool, line: usize, key: Scalar) -> Result<(), Stop>
        ensures { Steps result self.new (headed depth mapping line key self.old) }
    {
        self.close_deeper(depth)?;
        match self.open_rows.pop_at(depth) {
            Some(last) => {
                self.next_row(last, line, key)?;
                Ok(())
            }
            None => self.begin(depth, mapping, line, key),
        }
    }

    /// Whether a value of this depth may come.
    fn can_hold(&self, depth: u128) -> bool
        ensures { result ≡ can_hold depth self.now }
    {
        match self.open_rows.top_depth() {
            Some(outer) => self.value.is_none() && outer < depth,
            None => self.value.is_none(),
        }
    }

    /// Whether an anchor or an alias of this depth may come.
    fn can_name(&self, depth: u128) -> bool
        ensures { result ≡ can_name depth self.now }
    {
        self.name.is_none() && self.can_hold(depth)
    }

    /// Takes a scalar.
    #[tactic(auto, unfolding(crate::specs::inside::Builder::with_scalar))]
    fn scalar(&mut self, depth: u128, line: usize, text: TextOrNull) -> Result<(), Stop>
        ensures { Steps result self.new (with_scalar depth line text self.old) }
    {
        if !self.can_hold(depth) {
            return Err(Stop::Fault(FaultKind::Syntax));
        }
        self.put_node(line, scalar_value(text), Measure::one_node())?;
        Ok(())
    }

    /// Takes a name.
    #[tactic(auto, unfolding(crate::specs::inside::Builder::with_name))]
    fn give_name(&mut self, depth: u128, line: usize, text: Scalar) -> Result<(), Stop>
        ensures { Steps result self.new (with_name depth line text self.old) }
    {
        if !self.can_name(depth) {
            return Err(Stop::Fault(FaultKind::Syntax));
        }
        self.name = Some(GivenName { line, text });
        Ok(())
    }

    /// Takes what an alias's name found.
    fn put_found(&mut self, line: usize, found: Option<KnownNode>) -> Result<(), NoMemory>
        ensures { OnOk result (self.new ≡ put_found line found self.old) }
    {
        match found {
            Some(known) => {
                self.value = Some(known);
                Ok(())
            }
            None => self.put_node(line, Value::Null, Measure::unknown_node()),
        }
    }

    /// Takes an alias.
    #[tactic(auto, unfolding(crate::specs::inside::Builder::with_alias))]
    fn alias(&mut self, depth: u128, line: usize, name: &Scalar) -> Result<(), Stop>
        ensures { Steps result self.new (with_alias depth line name.now self.old) }
    {
        if !self.can_name(depth) {
            return Err(Stop::Fault(FaultKind::Syntax));
        }
        let found = self.names.find(name);
        self.put_found(line, found)?;
        Ok(())
    }

    /// Takes the bar of a literal block.
    #[tactic(auto, unfolding(crate::specs::inside::Builder::with_bar))]
    fn bar(&mut self, depth: u128, line: usize, chomp: Chomp) -> Result<(), Stop>
        ensures { Steps result self.new (with_bar depth line chomp self.old) }
    {
        if !self.can_hold(depth) {
            return Err(Stop::Fault(FaultKind::Syntax));
        }
        self.literal = Some(Literal {
            depth,
            line,
            chomp,
            lines: TextLines::new(self.alloc),
        });
        Ok(())
    }

    /// Takes a line of a literal block.
    #[tactic(auto, unfolding(crate::specs::inside::Builder::with_line))]
    fn literal_line(&mut self, depth: u128, bytes: Scalar) -> Result<(), Stop>
        ensures { Steps result self.new (with_line depth bytes self.old) }
    {
        match self.literal.take() {
            Some(mut literal) if literal.depth == depth => {
                literal.lines.push(bytes)?;
                self.literal = Some(literal);
                Ok(())
            }
            _ => Err(Stop::Fault(FaultKind::Syntax)),
        }
    }

    /// Makes the literal block that is open, if any, the value.
    #[tactic(auto, unfolding(crate::specs::inside::Builder::ended))]
    fn end_literal(&mut self) -> Result<(), NoMemory>
        ensures { OnOk result (self.new ≡ ended self.old) }
    {
        match self.literal.take() {
            Some(literal) => {
                let line = literal.line;
                let text = literal.into_text(self.alloc)?;
                self.put_node(line, Value::Text(text), Measure::one_node())
            }
            None => Ok(()),
        }
    }

    /// Takes a flow form.
    #[tactic(auto, unfolding(crate::specs::inside::Builder::with_form))]
    fn form(&mut self, depth: u128, line: usize, pieces: Pieces) -> Result<(), Stop>
        ensures { Steps result self.new (with_form depth line pieces self.old) }
    {
        if !self.can_hold(depth) {
            return Err(Stop::Fault(kind_of(why_bracket(&pieces))));
        }
        match flow_fault(self.alloc, &pieces)? {
            Some(kind) => Err(Stop::Fault(kind)),
            None => {
                self.take_pieces(line, pieces)?;
                Ok(())
            }
        }
    }

    /// The kind of fault of a token that no rule admits.
    fn odd_kind(&self, depth: u128, why: Odd) -> FaultKind
        ensures { result ≡ odd_kind depth why self.now }
    {
        match why {
            Odd::Indicator => {
                if self.can_hold(depth) {
                    FaultKind::Unsupported
                } else {
                    FaultKind::Syntax
                }
            }
            Odd::Unsupported => FaultKind::Unsupported,
            Odd::Unkeyed | Odd::Syntax => FaultKind::Syntax,
        }
    }

    /// Refuses a token that no rule admits. A scalar without its colon is tried as a key.
    fn refuse(&mut self, depth: u128, line: usize, why: Odd) -> Result<(), Stop>
        ensures { Steps result self.new (refused depth line why self.old) }
    {
        match why {
            Odd::Unkeyed => {
                let key = Scalar::new();
                self.head(depth, true, line, key)?;
                Err(Stop::Fault(FaultKind::Unsupported))
            }
            _ => Err(Stop::Fault(self.odd_kind(depth, why))),
        }
    }

    /// Takes a token.
    #[tactic(auto, unfolding(crate::specs::inside::Builder::take_token))]
    pub fn take_token(&mut self, token: Token) -> Result<(), Stop>
        ensures { Steps result self.new (take_token token self.old) }
    {
        if let Token::Body {
            column,
            text: bytes,
            ..
        } = token
        {
            return self.literal_line(key_depth(column), bytes);
        }
        self.end_literal()?;
        match token {
            Token::Dash { line, column } => {
                let none = Scalar::new();
                self.head(dash_depth(column), false, line, none)
            }
            Token::Key { line, column, text } => self.head(key_depth(column), true, line, text),
            Token::Scalar { line, column, text } => self.scalar(key_depth(column), line, text),
            Token::Anchor {
                line,
                column,
                name: text,
            } => self.give_name(key_depth(column), line, text),
            Token::Alias {
                line,
                column,
                name: text,
            } => self.alias(key_depth(column), line, &text),
            Token::Bar {
                line,
                column,
                chomp,
            } => self.bar(key_depth(column), line, chomp),
            Token::Form {
                line,
                column,
                pieces,
            } => self.form(key_depth(column), line, pieces),
            Token::OddToken { line, column, why } => self.refuse(key_depth(column), line, why),
            Token::Body { .. } => Ok(()),
        }
    }

    /// Closes all that is open, and gives the number of the root.
    #[tactic(auto, unfolding(crate::specs::inside::Builder::whole))]
    pub fn finish(&mut self) -> Result<u32, NoMemory>
        ensures { IfOk result (λ n. (n ≡ root_number self.old) × (self.new ≡ whole self.old)) }
    {
        self.end_literal()?;
        self.close_deeper(0)?;
        let root = self.take_value(1)?;
        Ok(root.node)
    }

    /// The limits at a line's end.
    #[tactic(auto, unfolding(crate::specs::inside::Builder::judged))]
    pub fn judge(&self) -> Result<(), Stop>
        ensures { Steps result self.now (judged self.now) }
    {
        let value = match self.value {
            Some(known) => known.measure,
            None => Measure::one_node(),
        };
        match self.open_rows.measure_about(value).fault() {
            Some(kind) => Err(Stop::Fault(kind)),
            None => Ok(()),
        }
    }
}

/// How deep a dash at a column stands.
fn dash_depth(column: usize) -> u128
    ensures { result ≡ 2 + 2 * column }
{
    2 + 2 * (column as u128)
}

/// How deep a key, a scalar and any other token but a dash at a column stands.
fn key_depth(column: usize) -> u128
    ensures { result ≡ 1 + 2 * column }
{
    1 + 2 * (column as u128)
}

pub(crate) fn scalar_value(text: TextOrNull) -> Value
    ensures { result ≡ scalar_value text }
{
    match text.into_text() {
        Some(text) => Value::Text(text),
        None => Value::Null,
    }
}

fn kind_of(why: Odd) -> FaultKind
    ensures { result ≡ kind_of why }
{
    match why {
        Odd::Unsupported => FaultKind::Unsupported,
        _ => FaultKind::Syntax,
    }
}
