// Statements about a shelf of saved lists (change request 9). No code.
