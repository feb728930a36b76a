// A table written and read back, a body read and written back, and a book put together. Theorems only.
#![tactic(auto)]
